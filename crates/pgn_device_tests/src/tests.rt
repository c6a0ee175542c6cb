//! The tests of devices, and of inputs that are read twice.
mod checked;
mod devices;
mod outlines;
mod reads;
mod sources;
mod writes;
