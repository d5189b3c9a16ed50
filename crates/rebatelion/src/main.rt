// Prints the marks of the chart in model.bin, or in the file that its one argument names.
#![tactic(auto)]

use std::env::FillError;
use std::rt::Env;

fn main(rt: HostRuntime) {
    let mut path = [0u8; 4096];
    match rt.arg(1, &mut path) {
        Ok(length) => printer::run(&rt, &path[..length]),
        Err(FillError::NotPresent) => printer::run(&rt, b"model.bin"),
        // an argument that is too long leaves an empty name, which opens no file
        Err(FillError::TooLong) => printer::run(&rt, b""),
    }
}
