//! Where reading goes on after a bad game of a source that can be set back.
ghost use Rattle.std.specs.Prelude.{◌≡◌, ◌<◌, ◌≤◌, ◌^◌, OnErr};
ghost use Rattle.pgn_layout.specs.Device.{device};
ghost use Rattle.pgn_game.specs.steps.SkippingSteps.{FindsSection, IsReadFault, SetsTo};

use crate::converter::MAX_INPUT_LENGTH;
use crate::read_buffer::ReadBuffer;
use crate::reason::{Fault, Reason};
use crate::source::Rewinds;
use pgn_sections::SectionSearch;

// A read that failed at this place.
fn read_fault(at: u64) -> Fault
    ensures { IsReadFault result }
{
    let reason = Reason::ReadFault;
    Fault { at, reason }
}

// Returns where the section after a bad game begins, if there is one. The game begins at `begin`.
pub fn section_behind<R: Rewinds>(
    source: &mut R,
    begin: u64,
    fault: u64,
) -> Result<Option<u64>, Fault>
    requires { begin ≤ 2 ^ 62 }
    ensures finds { FindsSection (R.text source.old) begin fault
        (device R.left R.failures source.old source.new) result }
    ensures text { R.text source.new ≡ R.text source.old }
{
    if source.set_to(begin).is_err() {
        return Err(read_fault(begin));
    }
    let mut search = SectionSearch::new(begin as usize, fault as usize);
    let mut buffer = ReadBuffer::new();
    let mut place = begin;
    loop {
        match buffer.fill(source) {
            Err(_) => return Err(read_fault(place)),
            Ok(false) => return Ok(place_of(search.finish())),
            Ok(true) => {}
        }
        let piece = buffer.unused();
        if MAX_INPUT_LENGTH - place < piece.len() as u64 {
            let at = MAX_INPUT_LENGTH;
            let reason = Reason::InputTooLong;
            return Err(Fault { at, reason });
        }
        place += piece.len() as u64;
        let found = search.feed(piece);
        if found.is_some() {
            return Ok(place_of(found));
        }
    }
}

fn place_of(found: Option<usize>) -> Option<u64>
    ensures { result ≡ found }
{
    match found {
        Some(place) => Some(place as u64),
        None => None,
    }
}

// Sets a source to a place above 0. Returns whether that is in the first column.
pub fn set_to<R: Rewinds>(source: &mut R, place: u64) -> Result<bool, Fault>
    requires { 0 < place }
    ensures sets { SetsTo (R.text source.old) place
        (device R.left R.failures source.old source.new) result }
    ensures text { R.text source.new ≡ R.text source.old }
{
    if source.set_to(place - 1).is_err() {
        return Err(read_fault(place));
    }
    let mut before = [0; 1];
    match source.read_some(&mut before) {
        Err(_) => Err(read_fault(place)),
        Ok(0) => Ok(false),
        Ok(_) => Ok(matches!(before[0], b'\n' | b'\r')),
    }
}
