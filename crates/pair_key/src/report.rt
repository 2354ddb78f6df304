// What the program prints for a line and the numbers of other kiosks.
ghost use Rattle.std.specs.Prelude.{◌≡◌, Some, string_bytes};
ghost use Rattle.std.specs.Option.{option_map};
ghost use Rattle.line.specs.declared.refusal.Refusal.TheVariants.{OutOfForm};
ghost use Rattle.line.specs.Digits.{eight};
ghost use Rattle.line.specs.Faults.{unless};
ghost use Rattle.line.specs.KioskLine.{kiosk_fault, kiosk_head};
ghost use Rattle.pair_key.specs.Report.{key_line, Appended, Reported};
ghost use Rattle.pair_key.specs.declared.report.Failure.TheVariants.{Refused, Memory};

use field::interface::Field;
use kiosk::{derive, field_numbers};
use line::digits::hex;
use line::kiosk_line::{KioskHead, KioskLine};
use line::number::KioskNumber;
use line::refusal::Refusal;
use std::alloc::{AllocError, Global};
use std::error::Error;
use std::fmt;

// A refusal, or want of memory.
#[derive(Clone, Copy, PartialEq, Eq, Debug)]
pub enum Failure {
    Refused(Refusal),
    Memory,
}

impl fmt::Display for Failure {
    fn fmt<W: fmt::Write>(&self, f: &mut fmt::Formatter<W>) -> fmt::Result {
        match self {
            Failure::Refused(refusal) => write!(f, "refused {refusal}"),
            Failure::Memory => write!(f, "out of memory"),
        }
    }
}

impl Error for Failure {}

impl From<Refusal> for Failure {
    ghost from_gives = { λ cause r. r ≡ Refused cause };

    fn from(cause: Refusal) -> Failure {
        Failure::Refused(cause)
    }
}

impl From<AllocError> for Failure {
    ghost from_gives = { λ _ r. r ≡ Memory };

    fn from(_e: AllocError) -> Failure {
        Failure::Memory
    }
}

// The numbers of a line.
fn head<F: Field>(text: &[u8]) -> Result<KioskHead, Refusal>
    ensures { result ≡ unless (option_map OutOfForm (kiosk_fault 1 F.Field.arith.mark F.Field.arith.order text.now)) (kiosk_head text.now) }
{
    let line = KioskLine::read(1, field_numbers::<F>(), text)?;
    Ok(line.head)
}

// A code of a key. `{:08x}` would branch on the values of its digits, which are secret.
#[derive(Clone, Copy)]
struct Code(u32);

impl fmt::Display for Code {
    ghost output = { λ code. Some (eight code.0) };

    fn fmt<W: fmt::Write>(&self, f: &mut fmt::Formatter<W>) -> fmt::Result {
        let digits = hex(self.0);
        // At once and without a check that they are UTF-8, which would ask of each digit whether its byte is below 128.
        f.write_str(unsafe { str::from_utf8_unchecked(&digits) })
    }
}

// The key that the kiosk of a line shares with one of the others.
#[derive(Clone, Copy)]
struct SharedKey<'a> {
    head: KioskHead,
    other: KioskNumber,
    codes: &'a [u32],
}

impl fmt::Display for SharedKey<'_> {
    ghost output = { λ key. Some (key_line key.head key.other.0 key.codes.now) };

    fn fmt<W: fmt::Write>(&self, f: &mut fmt::Formatter<W>) -> fmt::Result {
        let own = self.head.number.0;
        let other = self.other.0;
        let tour = self.head.tour;
        write!(f, "kiosk {own} and kiosk {other} of tour {tour}:")?;
        for code in self.codes {
            write!(f, " {}", Code(*code))?;
        }
        writeln!(f)
    }
}

// Derives the key for one of the others, and appends its line.
fn append_key<F: Field>(
    lines: &mut String,
    text: &[u8],
    head: KioskHead,
    other: KioskNumber,
) -> Result<(), Failure>
    requires { head ≡ kiosk_head text.now }
    ensures { Appended F.Field.arith text.now other (string_bytes lines.old) (string_bytes lines.new) result }
{
    // Room for the longest key, which `derive` asks to be lent.
    let mut key = [0u32; 16];
    let count = derive::<F>(text, other, &mut key)?;
    let codes = &key[..count];
    write!(lines, "{}", SharedKey { head, other, codes })?;
    Ok(())
}

// The bytes of a line up to its colon, if its three numbers have ten digits each, and those of a code and the blank before it.
const LONGEST_START: usize = 57;

const LONGEST_CODE: usize = 9;

// The lines of the keys that the kiosk of this line shares with the others.
pub fn report<F: Field>(
    alloc: Global,
    text: &[u8],
    others: &[KioskNumber],
) -> Result<String, Failure>
    ensures { Reported F.Field.arith text.now others.now result }
{
    let head = head::<F>(text)?;
    let mut lines = String::new(alloc);
    // Room for all lines at once, with none of it copied as they grow. Where there is no such room, they grow as they come.
    let longest = LONGEST_START + LONGEST_CODE * head.lanes as usize + 1;
    let _ = lines.reserve(others.len().saturating_mul(longest));
    for other in others {
        append_key::<F>(&mut lines, text, head, *other)?;
    }
    Ok(lines)
}
