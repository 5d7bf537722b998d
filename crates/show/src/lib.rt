// Answers printed on standard output, for the programs that run the entries at the edges of their inputs.
#![tactic(auto)]

use opcodes::Form;
use refusal::Refusal;
use std::io;
use templates::Template;
use walk::Instruction;

// The bytes as they are.
pub fn text(rt: &impl Print, s: &[u8]) -> io::Result<()> {
    rt.write_all(s)
}

pub fn line_end(rt: &impl Print) -> io::Result<()> {
    text(rt, b"\n")
}

// Two digits for each byte, with a space before them.
pub fn hex(rt: &impl Print, s: &[u8]) -> io::Result<()> {
    for b in s {
        print!(rt; " {b:02x}")?;
    }
    Ok(())
}

// A word and a number, each with a space before it.
pub fn named(rt: &impl Print, word: &[u8], n: usize) -> io::Result<()> {
    text(rt, b" ")?;
    text(rt, word)?;
    print!(rt; " {n}")
}

// A refusal's number and its values. No Display of the library: its words would be a promise to its callers, and these programs alone print them.
pub fn refused(rt: &impl Print, r: Refusal) -> io::Result<()> {
    let number = r.number();
    print!(rt; " refusal {number}")?;
    match r {
        Refusal::NonMinimal(place) => print!(rt; " at {place}"),
        Refusal::NoRoom(needed) => print!(rt; " needs {needed}"),
        Refusal::LengthCut(place, missing) | Refusal::BodyCut(place, missing) => {
            print!(rt; " at {place} missing {missing}")
        }
        _ => Ok(()),
    }
}

// What an entry answers, printed with a space before it.
pub trait Show {
    fn show(self, rt: &impl Print) -> io::Result<()>;
}

// The answer, or the refusal.
pub fn answer<T: Show>(rt: &impl Print, answer: Result<T, Refusal>) -> io::Result<()> {
    match answer {
        Ok(said) => said.show(rt),
        Err(r) => refused(rt, r),
    }
}

impl Show for () {
    fn show(self, rt: &impl Print) -> io::Result<()> {
        print!(rt; " done")
    }
}

impl Show for bool {
    fn show(self, rt: &impl Print) -> io::Result<()> {
        print!(rt; " {self}")
    }
}

// A count.
impl Show for usize {
    fn show(self, rt: &impl Print) -> io::Result<()> {
        print!(rt; " count {self}")
    }
}

// An amount.
impl Show for u64 {
    fn show(self, rt: &impl Print) -> io::Result<()> {
        print!(rt; " {self}")
    }
}

// A number that was read.
impl Show for i64 {
    fn show(self, rt: &impl Print) -> io::Result<()> {
        print!(rt; " {self}")
    }
}

// The words of the inspector's screen, which `head` keeps to itself.
impl Show for Template {
    fn show(self, rt: &impl Print) -> io::Result<()> {
        let name = match self {
            Template::P2pkh => "p2pkh",
            Template::P2sh => "p2sh",
            Template::P2wpkh => "p2wpkh",
            Template::P2wsh => "p2wsh",
            Template::P2tr => "p2tr",
            Template::P2a => "p2a",
            Template::Witness => "witness",
            Template::P2pk => "p2pk",
            Template::Multisig => "multisig",
            Template::OpReturn => "opreturn",
            Template::Other => "other",
        };
        print!(rt; " {name}")
    }
}

// What the walk found.
impl Show for Option<Instruction> {
    fn show(self, rt: &impl Print) -> io::Result<()> {
        match self {
            None => print!(rt; " end"),
            Some(Instruction::Opcode { place, code }) => {
                print!(rt; " opcode at {place} code {code}")
            }
            Some(
                Instruction::Push {
                    place,
                    form,
                    body,
                    len,
                },
            ) => {
                let form = form_name(form);
                print!(rt; " push at {place} {form} body at {body} of {len}")
            }
        }
    }
}

fn form_name(form: Form) -> &'static str {
    match form {
        Form::Direct => "direct",
        Form::PushData1 => "pushdata1",
        Form::PushData2 => "pushdata2",
        Form::PushData4 => "pushdata4",
    }
}
