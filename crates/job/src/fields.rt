// The fields of a job, read one behind another. A field that is not present takes no bytes.
// A place is far below what a `usize` holds, so that the place behind a field is too.
ghost use Rattle.std.specs.Prelude.{◌≡◌, ◌+◌, ◌<◌, ◌≤◌, cond, IfOk};
ghost use Rattle.job.specs.Fields.{stands, u64_field, f32_field, kind_field};
ghost use Rattle.job.specs.Reads.{SameJob, HasRead, HasTried};

use crate::answer::{Fault, Refusal};
use numbers_in::number;
use numbers_in::number::Number;

// Where a job is read: its bytes, the map of the fields that are present, and the place of the next one.
#[derive(Drop)]
pub struct Fields<'a> {
    pub job: &'a [u8],
    pub map: u16,
    pub at: usize,
}

impl<'a> Fields<'a> {
    // Whether the field of this bit is present.
    pub fn has(&self, bit: u16) -> bool
        requires { bit < 16 }
        ensures { result ≡ stands self.now.map bit }
    {
        self.map >> bit & 1 == 1
    }

    // A number that every job has.
    pub fn next<T: Number>(&mut self) -> T
        requires low { self.old.at ≤ 1000 }
        requires size { T.SIZE ≤ 8 }
        ensures value { result ≡ T.read self.old.job.now self.old.at }
        ensures next { self.new.at ≡ self.old.at + T.SIZE }
        ensures same { SameJob self.old self.new }
    {
        let value = T::at(self.job, self.at);
        self.at += T::SIZE;
        value
    }

    // The number of this bit, or what it is where it is absent.
    pub fn u64_or(&mut self, bit: u16, absent: u64) -> u64
        requires bit_in_map { bit < 16 }
        requires low { self.old.at ≤ 1000 }
        ensures next_bound { self.new.at ≤ self.old.at + 8 }
        ensures read { HasRead self.old
            (u64_field self.old.job.now self.old.at (stands self.old.map bit) absent) result self.new }
    {
        if !self.has(bit) {
            return absent;
        }
        self.next()
    }

    // The number of a kind that has one.
    pub fn f32_if(&mut self, present: bool) -> f32
        requires low { self.old.at ≤ 1000 }
        ensures next_bound { self.new.at ≤ self.old.at + 4 }
        ensures read { HasRead self.old (f32_field self.old.job.now self.old.at present) result self.new }
    {
        if !present {
            return 0.0;
        }
        self.next()
    }

    // A kind, of those that are numbered from 0 to `most`; absent it is 0.
    pub fn kind(&mut self, present: bool, most: u8) -> Result<u8, Refusal>
        requires low { self.old.at ≤ 1000 }
        ensures next_bound { self.new.at ≤ self.old.at + 1 }
        ensures next_value { IfOk result (λ _. self.new.at ≡ cond present (self.old.at + 1) self.old.at) }
        ensures read { HasTried self.old
            (kind_field self.old.job.now self.old.at present most) result self.new }
    {
        if !present {
            return Ok(0);
        }
        let number = number::byte_at(self.job, self.at);
        if most < number {
            return Err(Refusal {
                fault: Fault::UnknownKind,
                at: self.at,
            });
        }
        self.at += 1;
        Ok(number)
    }
}
