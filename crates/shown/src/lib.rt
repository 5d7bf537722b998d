// One raw script from a reader to its screen on standard output.
#![tactic(auto)]

ghost use Rattle.std.specs.Prelude.{◌≡◌, ◌++◌, ◌≤◌, length, take, drop, IfOk, IfSome};
ghost use Rattle.std.specs.Io.{ReadsAtMost};
ghost use Rattle.std.specs.Io.KnownBytes.{ReadConsumes};
ghost use Rattle.screen.specs.Screen.{screen_of};
ghost use Rattle.shown.specs.Reads.{Brings, Shows};

use inspect::inspect;
use std::io;
use std::io::Read;

// How many bytes are read at most: one more than is inspected. What follows them changes no screen.
const MAX_READ: usize = 2801;

// One read, behind so many bytes of the buffer, which stay as they are.
fn read_on<R: Read>(from: &mut R, buf: &mut [u8], done: usize) -> io::Result<usize>
    requires { done ≤ length buf.old }
    ensures bound { ReadsAtMost result (drop done buf.new) }
    ensures bytes { ReadConsumes (R.remaining from.old) (R.remaining from.new) result (drop done buf.new) }
    ensures kept { take done buf.new ≡ take done buf.old }
{
    from.read(&mut buf[done..])
}

// Reads to the input's end in as many reads as it takes, or until the buffer is full, and answers how many bytes these are. Fails where a read does.
fn read_in<R: Read>(from: &mut R, buf: &mut [u8]) -> io::Result<usize>
    ensures room { length buf.new ≡ length buf.old }
    ensures whole { IfOk result (λ n. Brings (R.remaining from.old) buf.new n) }
{
    let mut done = 0;
    while done < buf.len() {
        let more = read_on(from, buf, done)?;
        if more == 0 {
            return Ok(done);
        }
        done += more;
    }
    Ok(done)
}

// Writes a script's screen to a buffer that has room for every screen, and answers its length.
#[tactic(auto, using(screen::proofs::Short::has_room, refusal::proofs::Same::told))]
fn screen(script: &[u8], out: &mut [u8]) -> usize
    requires { 64538 ≤ length out.old }
    ensures count { result ≡ length (screen_of script.now) }
    ensures room { result ≤ length out.new }
    ensures left { out.new ≡ screen_of script.now ++ drop (length (screen_of script.now)) out.old }
{
    inspect(script, out).unwrap_or(0)
}

// Reads a script, writes its screen to a buffer that has room for every screen, and answers its length. Fails where a read does.
#[tactic(auto, using(crate::proofs::Reading::shows))]
fn screen_from<R: Read>(from: &mut R, out: &mut [u8]) -> io::Result<usize>
    requires { 64538 ≤ length out.old }
    ensures { IfOk result (λ n. Shows (R.remaining from.old) out.new n) }
{
    let mut script = [0u8; MAX_READ];
    let n = read_in(from, &mut script)?;
    Ok(screen(&script[..n], out))
}

// A line on standard error; where that fails too, there is nowhere left to say so.
fn complain(rt: &impl Eprint, line: &str) {
    let _ = rt.eprintln(line);
}

// Writes all of the screen; a line on standard error where that fails.
fn print(rt: &(impl Print + Eprint), shown: &[u8]) {
    if rt.write_all(shown).is_err() {
        complain(rt, "inspector: standard output could not be written");
    }
}

// The screen of the script that can be read there; where a read fails, nothing but a line on standard error.
pub fn show_from<R: Read>(rt: &(impl Print + Eprint), from: &mut R) {
    let mut out = [0u8; 65536];
    match screen_from(from, &mut out) {
        Ok(n) => print(rt, &out[..n]),
        Err(_) => complain(rt, "inspector: standard input could not be read"),
    }
}
