// Document 02, K4: reads a capture on standard input, and says why each dropped record was dropped, or says it of the one record whose number
// is its argument.
#![tactic(auto)]

use outputs::Output;
use std::env::FillError;
use std::fmt;
use std::io::Write;
use std::rt::Env;

// Why the program's arguments do not say what is wanted.
#[derive(Clone, Copy)]
enum BadArguments {
    TooMany,
    NoNumber,
}

// The whole line, so that it goes out in one write.
impl fmt::Display for BadArguments {
    fn fmt<W: fmt::Write>(&self, f: &mut fmt::Formatter<W>) -> fmt::Result {
        match self {
            BadArguments::TooMany => write!(
                f,
                "why: more than one argument: give one record number, or none for every dropped record\n",
            ),
            BadArguments::NoNumber => write!(
                f,
                "why: the argument is no record number: give a number from 1 on, or none for every dropped record\n",
            ),
        }
    }
}

// What is wanted: the one record whose number is the first argument, or every one where there is none. An argument that is too long for the
// buffer is no number, and was given too.
fn wanted(rt: &HostRuntime) -> Result<Output, BadArguments> {
    let mut argument = [0; 32];
    if !matches!(rt.arg(2, &mut argument), Err(FillError::NotPresent)) {
        return Err(BadArguments::TooMany);
    }
    let length = match rt.arg(1, &mut argument) {
        Ok(length) => length,
        Err(FillError::NotPresent) => return Ok(Output::Reasons(None)),
        Err(FillError::TooLong) => return Err(BadArguments::NoNumber),
    };
    match arguments::record_number(&argument[..length]) {
        Some(number) => Ok(Output::Reasons(Some(number))),
        None => Err(BadArguments::NoNumber),
    }
}

// Arguments that do not say what is wanted are told on standard error, and nothing is told where that cannot be written.
fn main(rt: HostRuntime) {
    match wanted(&rt) {
        Ok(output) => programs::replay(&rt, output),
        Err(fault) => {
            let _ = write!(rt.stderr(), "{fault}");
        }
    }
}
