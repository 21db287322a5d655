// What a call answered, in the form of document 01's printing program.
use refused::Refusal;
use rulings::answers::Answer;
use std::fmt;
use std::net::Ipv4Addr;

// A packet's answer is its refusal, or its verdict with the count and the replaced address; another call's is its refusal, or that it is done.
#[derive(Clone, Copy)]
pub enum Told {
    Packet(Result<Answer, Refusal>),
    Other(Result<(), Refusal>),
}

impl fmt::Display for Told {
    fn fmt<W: fmt::Write>(&self, f: &mut fmt::Formatter<W>) -> fmt::Result {
        match *self {
            Told::Packet(Err(refusal)) | Told::Other(Err(refusal)) => {
                write!(f, "R {}", u8::from(refusal))
            }
            Told::Other(Ok(())) => write!(f, "done"),
            Told::Packet(Ok(Answer::NotOurs)) => write!(f, "0 - -"),
            Told::Packet(
                Ok(
                    Answer::Judged {
                        verdict,
                        count,
                        replaced,
                    },
                ),
            ) => {
                let number = u8::from(verdict);
                match replaced {
                    None => write!(f, "{number} {count} -"),
                    Some(address) => write!(f, "{number} {count} {}", Ipv4Addr::from(address)),
                }
            }
        }
    }
}
