//! The program over the system's words, files and output.
use crate::run::run;
use hls_base::real::{RealShelf, RealSink};
use std::{env, io};

/// Does what the program's words say, and answers the status with which it ends: that of `run`, or 4 where the words could not be kept for want of memory, or 3 where one of them is no UTF-8.
pub fn start(rt: &HostRuntime) -> u8 {
    let mut words = match env::args(rt) {
        Ok(words) => words,
        Err(e) if e.kind() == io::ErrorKind::OutOfMemory => return 4,
        Err(_) => return 3,
    };
    // the name of the program
    words.next();
    match words.collect::<Vec<String>>(rt.alloc()) {
        Ok(words) => {
            let mut shelf = RealShelf::new(rt);
            let mut out = RealSink::new(rt);
            run(rt.alloc(), &words, &mut shelf, &mut out)
        }
        Err(_) => 4,
    }
}
