//! The file system of the process.
ghost use Rattle.std.specs.Prelude.{◌≡◌, IfOk, string_bytes};
ghost use Rattle.pgn_tool.specs.FileName.{path_in, slash_behind};

use crate::file_system::FileSystem;
use crate::machine::SystemFault;
use pgn_game::Outlet;
use std::alloc::{AllocError, Global};
use std::fs::File;

/// The file system of the process, and the folder that files are made in.
#[derive(Drop)]
pub struct System {
    rt: HostRuntime,
    folder: String,
}

impl System {
    /// The file system, which makes files in the current folder.
    pub fn new(rt: HostRuntime) -> System {
        System {
            rt,
            folder: String::new(rt.alloc()),
        }
    }
}

impl FileSystem for System {
    ghost use Rattle.std.specs.Prelude.{None, true};
    ghost use Rattle.pgn_tool.specs.Machine.{holds};

    type File = File;

    type Out = Outlet<File>;

    ghost holding = { λ _ _. holds None };

    ghost refuses = { λ _ _ _. true };

    ghost log = { λ _. None };

    fn open(&self, path: &str) -> Result<File, SystemFault> {
        Ok(File::open(&self.rt, path)?)
    }

    fn enter(&mut self, folder: String) {
        self.folder = folder;
    }

    fn create(&mut self, name: &str) -> Result<Outlet<File>, SystemFault> {
        let path = path_in(self.rt.alloc(), self.folder.as_str(), name)?;
        Ok(Outlet::new(File::create(&self.rt, path.as_str())?))
    }

    fn close(&mut self, _out: Outlet<File>) {}
}

/// The path of the file with this name in the folder. An empty folder is the current one.
pub fn path_in(alloc: Global, folder: &str, name: &str) -> Result<String, AllocError>
    ensures { IfOk result (λ path. string_bytes path ≡ path_in folder.now name.now) }
{
    let mut path = String::from_str(alloc, folder)?;
    path.push_str(slash_behind(folder.as_bytes().last().copied()))?;
    path.push_str(name)?;
    Ok(path)
}

// What goes between a folder that ends in this byte and a name.
fn slash_behind(byte: Option<u8>) -> &'static str
    ensures { result.now ≡ slash_behind byte }
{
    match byte {
        None | Some(b'/') => "",
        Some(_) => "/",
    }
}
