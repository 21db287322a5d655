// The printing program's lines, put into lent room from a place on, and what they are made of: texts, numbers and addresses. A byte for which
// there is no room is left out.
#![tactic(auto)]

ghost use Rattle.std.specs.Prelude.{◌≡◌, ◌∷◌, ◌++◌, Ok};
ghost use Rattle.lines.specs.Text.{space, dot, decimal, signed, dotted, or_dash};
ghost use Rattle.lines.specs.Lines.{refusal_text, answer_text, refused_line, line, last_line};
ghost use Rattle.lines.specs.Room.{put_byte, put};

use refused::Refusal;
use rulings::answers::Answer;

// Lent room, and the place after the last byte that was put.
#[derive(Drop)]
pub struct Room<'a> {
    pub bytes: &'a mut [u8],
    pub at: usize,
}

#[tactic(auto, using(crate::proofs::Rooms::put_more), unfolding(crate::specs::Room::put, crate::specs::Text::digits_in))]
impl Room<'_> {
    ghost use Rattle.lines.specs.Rooms.{room_in};

    // Puts one byte.
    #[tactic(auto, unfolding(crate::specs::Room::put_byte))]
    pub fn byte(&mut self, byte: u8)
        ensures same { self.new.bytes.ghost_name ≡ self.old.bytes.ghost_name }
        ensures put { room_in self.new ≡ put_byte byte (room_in self.old) }
    {
        if self.at < self.bytes.len() {
            self.bytes[self.at] = byte;
            self.at += 1;
        }
    }

    // Puts a text, byte by byte.
    #[tactic(auto, using(crate::proofs::Rooms::put_next), unfolding(crate::specs::Room::put))]
    pub fn text(&mut self, text: &[u8])
        ensures same { self.new.bytes.ghost_name ≡ self.old.bytes.ghost_name }
        ensures put { room_in self.new ≡ put text.now (room_in self.old) }
    {
        for byte in text {
            self.byte(*byte);
        }
    }

    // Puts a number's decimal digits, those of a tenth of it and the last.
    pub fn decimal(&mut self, number: u64)
        ensures same { self.new.bytes.ghost_name ≡ self.old.bytes.ghost_name }
        ensures put { room_in self.new ≡ put (decimal number) (room_in self.old) }
    {
        if number < 10 {
            self.byte(48 + number as u8);
        } else {
            self.decimal(number / 10);
            self.byte(48 + (number % 10) as u8);
        }
    }

    // Puts a count, with its sign where it is below 0.
    pub fn signed(&mut self, count: i16)
        ensures same { self.new.bytes.ghost_name ≡ self.old.bytes.ghost_name }
        ensures put { room_in self.new ≡ put (signed count) (room_in self.old) }
    {
        if count < 0 {
            self.byte(b'-');
        }
        self.decimal(count.unsigned_abs() as u64);
    }

    // A further byte of an address, with the dot before it.
    fn part(&mut self, part: u64)
        ensures same { self.new.bytes.ghost_name ≡ self.old.bytes.ghost_name }
        ensures put { room_in self.new ≡ put (dot ∷ decimal part) (room_in self.old) }
    {
        self.byte(b'.');
        self.decimal(part);
    }

    // Puts an address in dotted form.
    pub fn dotted(&mut self, address: u32)
        ensures same { self.new.bytes.ghost_name ≡ self.old.bytes.ghost_name }
        ensures put { room_in self.new ≡ put (dotted address) (room_in self.old) }
    {
        self.decimal((address / 16777216) as u64);
        self.part((address / 65536 % 256) as u64);
        self.part((address / 256 % 256) as u64);
        self.part((address % 256) as u64);
    }

    fn replaced(&mut self, replaced: Option<u32>)
        ensures same { self.new.bytes.ghost_name ≡ self.old.bytes.ghost_name }
        ensures put { room_in self.new ≡ put (or_dash dotted replaced) (room_in self.old) }
    {
        match replaced {
            None => self.byte(b'-'),
            Some(address) => self.dotted(address),
        }
    }

    fn refusal(&mut self, refusal: u8)
        ensures same { self.new.bytes.ghost_name ≡ self.old.bytes.ghost_name }
        ensures put { room_in self.new ≡ put (refusal_text refusal) (room_in self.old) }
    {
        self.text(b"R ");
        self.decimal(refusal as u64);
    }

    // A verdict's number, and a count and a replaced address after it.
    fn verdict(&mut self, verdict: u8, count: i16, replaced: Option<u32>)
        ensures same { self.new.bytes.ghost_name ≡ self.old.bytes.ghost_name }
        ensures put { room_in self.new
            ≡ put (decimal verdict ++ (space ∷ (signed count ++ (space ∷ or_dash dotted replaced)))) (room_in self.old) }
    {
        self.decimal(verdict as u64);
        self.byte(b' ');
        self.signed(count);
        self.byte(b' ');
        self.replaced(replaced);
    }

    fn answer(&mut self, answer: Answer)
        ensures same { self.new.bytes.ghost_name ≡ self.old.bytes.ghost_name }
        ensures put { room_in self.new ≡ put (answer_text (Ok answer)) (room_in self.old) }
    {
        match answer {
            Answer::NotOurs => self.text(b"0 - -"),
            Answer::Judged {
                verdict,
                count,
                replaced,
            } => self.verdict(u8::from(verdict), count, replaced),
        }
    }

    // Puts the line of a record that is refused, by its number and the refusal's, which may be any.
    pub fn refused_line(&mut self, number: u64, refusal: u8)
        ensures same { self.new.bytes.ghost_name ≡ self.old.bytes.ghost_name }
        ensures put { room_in self.new ≡ put (refused_line number refusal) (room_in self.old) }
    {
        self.decimal(number);
        self.byte(b' ');
        self.refusal(refusal);
        self.byte(b'\n');
    }

    // The line of a record that is answered.
    fn answered_line(&mut self, number: u64, answer: Answer)
        ensures same { self.new.bytes.ghost_name ≡ self.old.bytes.ghost_name }
        ensures put { room_in self.new ≡ put (line number (Ok answer)) (room_in self.old) }
    {
        self.decimal(number);
        self.byte(b' ');
        self.answer(answer);
        self.byte(b'\n');
    }

    // Puts the line of a record, by its number and what was answered.
    pub fn line(&mut self, number: u64, answer: Result<Answer, Refusal>)
        ensures same { self.new.bytes.ghost_name ≡ self.old.bytes.ghost_name }
        ensures put { room_in self.new ≡ put (line number answer) (room_in self.old) }
    {
        match answer {
            Err(refusal) => self.refused_line(number, u8::from(refusal)),
            Ok(answer) => self.answered_line(number, answer),
        }
    }

    // Puts the last line: how many records were read whole, and how many refusals there were.
    pub fn last_line(&mut self, records: u64, refusals: u64)
        ensures same { self.new.bytes.ghost_name ≡ self.old.bytes.ghost_name }
        ensures put { room_in self.new ≡ put (last_line records refusals) (room_in self.old) }
    {
        self.text(b"end ");
        self.decimal(records);
        self.byte(b' ');
        self.decimal(refusals);
        self.byte(b'\n');
    }
}
