// Scripts built piece by piece into a lent buffer: opcodes, data, integers, lock times, and verify folded into the last opcode.
#![tactic(auto)]

ghost use Rattle.std.specs.Prelude.{◌≡◌, pos, length};
ghost use Rattle.std.specs.Prelude.{None, Some};
ghost use Rattle.refusal.specs.Refusal.{said_refusal};
ghost use Rattle.opcodes.specs.Opcode.{said_form};
ghost use Rattle.walk.specs.Part.{Part};
ghost use Rattle.building.specs.Builder.{appends, push_opcode, push_slice, push_int, verify_form, push_verify, takes_over};
ghost use Rattle.building.specs.Lent.{calls, shown};
ghost use Rattle.layout.specs.Laid.{headed};
ghost use Rattle.builder.specs.Answer.{said_built, calls_by, handed_back};

use layout::{check, int_opcode, last_opcode, lay, shown_len, verify_form};
use numbers::write_scriptint;
use opcodes::{Form, OP_PUSHDATA1, OP_PUSHDATA2, OP_PUSHDATA4, OP_VERIFY};
use refusal::Refusal;

// The longest body that each length form can state, but for the longest form.
const MAX_DIRECT: usize = 75;

const MAX_PUSHDATA1: usize = 0xff;

const MAX_PUSHDATA2: usize = 0xffff;

// A script that is being built at the front of a buffer: how many of its bytes are used, and the opcode that the last call appended.
#[derive(Clone, Copy, Debug, PartialEq, Eq)]
pub struct Builder {
    pub length: usize,
    pub remembered: Option<u8>,
}

// What a call answers, and the builder for the next one, which document 01 hands back with a refusal too, so that this is no Result. After a refusal that is the builder that the call got, and the buffer is as it was.
#[derive(Clone, Copy, Debug, PartialEq, Eq)]
pub struct Built {
    pub answer: Result<(), Refusal>,
    pub builder: Builder,
}

impl Builder {
    // An empty script, nothing remembered.
    pub fn new() -> Builder
        ensures { (result.length ≡ 0) × (result.remembered ≡ None) }
    {
        Builder {
            length: 0,
            remembered: None,
        }
    }

    // What a call answers that ended so: the builder that it gives, or its refusal and this builder as it came.
    fn hand_back(self, done: Result<Builder, Refusal>) -> Built
        ensures { result ≡ handed_back self done }
    {
        match done {
            Ok(builder) => Built {
                answer: Ok(()),
                builder,
            },
            Err(why) => Built {
                answer: Err(why),
                builder: self,
            },
        }
    }

    // The builder behind an opcode byte, the form's length bytes and the body. The refusals of `check` come first; then 1 for a built script over
    // the limit, and 7 with its whole length where the buffer is shorter.
    #[tactic(auto, unfolding(building::specs::Lent::calls, building::specs::Lent::builder_says, building::specs::Lent::built_says))]
    fn appended(
        self,
        buffer: &mut [u8],
        code: u8,
        form: Form,
        body: &[u8],
        remembered: Option<u8>,
    ) -> Result<Builder, Refusal>
        ensures { said_built (handed_back self result) buffer.new ≡ calls_by self (appends (headed code (said_form form) body.now) remembered) buffer.old }
    {
        check(self.length, self.remembered, buffer)?;
        let length = lay(buffer, self.length, code, form, body)?;
        Ok(Builder { length, remembered })
    }

    // Appends an opcode byte, the form's length bytes and the body. Refused with 1, 13, 1 on what is built, 7.
    fn append(
        self,
        buffer: &mut [u8],
        code: u8,
        form: Form,
        body: &[u8],
        remembered: Option<u8>,
    ) -> Built
        ensures { said_built result buffer.new ≡ calls_by self (appends (headed code (said_form form) body.now) remembered) buffer.old }
    {
        self.hand_back(self.appended(buffer, code, form, body, remembered))
    }

    // Appends an opcode byte, any of 0 to 255, and remembers it. Refused as `append` is: 1, 13, 1 on what is built, 7.
    #[tactic(auto, unfolding(script::specs::Instruction::write_le))]
    pub fn push_opcode(self, buffer: &mut [u8], code: u8) -> Built
        ensures { said_built result buffer.new ≡ calls_by self (push_opcode code) buffer.old }
    {
        self.append(buffer, code, Form::Direct, b"", Some(code))
    }

    // Appends a push of the body in the shortest length form, never a number opcode, and remembers nothing. Refused with 1, 13, 1, 7.
    #[tactic(auto, unfolding(script::specs::Instruction::encode, building::specs::Builder::push_slice))]
    pub fn push_slice(self, buffer: &mut [u8], body: &[u8]) -> Built
        ensures { said_built result buffer.new ≡ calls_by self (push_slice body.now) buffer.old }
    {
        let len = body.len();
        if len <= MAX_DIRECT {
            return self.append(buffer, len as u8, Form::Direct, body, None);
        }
        if len <= MAX_PUSHDATA1 {
            return self.append(buffer, OP_PUSHDATA1, Form::PushData1, body, None);
        }
        if len <= MAX_PUSHDATA2 {
            return self.append(buffer, OP_PUSHDATA2, Form::PushData2, body, None);
        }
        self.append(buffer, OP_PUSHDATA4, Form::PushData4, body, None)
    }

    // Refuses with what `check` says, if it refuses, and else with this; the builder is handed back as it came.
    #[tactic(auto, unfolding(building::specs::Lent::calls, building::specs::Lent::builder_says))]
    fn refuse(self, buffer: &[u8], why: Refusal) -> Built
        ensures { said_built result buffer.now ≡ calls_by self (λ st. said_refusal why) buffer.now }
    {
        self.hand_back(check(self.length, self.remembered, buffer).and(Err(why)))
    }

    // Appends a number: its opcode for -1 to 16, remembered, and else a push of its bytes. Refused with 1, 13, 6 for -2^63, 1, 7.
    pub fn push_int(self, buffer: &mut [u8], n: i64) -> Built
        ensures { said_built result buffer.new ≡ calls_by self (push_int n) buffer.old }
    {
        if let Some(code) = int_opcode(n) {
            return self.push_opcode(buffer, code);
        }
        let mut bytes = [0u8; 8];
        match write_scriptint(n, &mut bytes) {
            Ok(count) => self.push_slice(buffer, &bytes[..count]),
            Err(why) => self.refuse(buffer, why),
        }
    }

    // Appends an absolute lock time as a number, an entry that document 01 names. Refused with 1, 13, 1, 7.
    pub fn push_lock_time(self, buffer: &mut [u8], locktime: u32) -> Built
        ensures { said_built result buffer.new ≡ calls_by self (push_int (pos locktime)) buffer.old }
    {
        self.push_int(buffer, locktime as i64)
    }

    // Appends a sequence number as a number, an entry that document 01 names. Refused with 1, 13, 1, 7.
    pub fn push_sequence(self, buffer: &mut [u8], sequence: u32) -> Built
        ensures { said_built result buffer.new ≡ calls_by self (push_int (pos sequence)) buffer.old }
    {
        self.push_int(buffer, sequence as i64)
    }

    // The builder with this verify form of the remembered opcode in its place. Refused with 1 and 13.
    #[tactic(auto, unfolding(building::specs::Lent::calls, building::specs::Lent::builder_says, building::specs::Builder::push_verify))]
    fn replaced(self, buffer: &mut [u8], code: u8) -> Result<Builder, Refusal>
        requires { verify_form self.remembered ≡ Some code }
        ensures { said_built (handed_back self result) buffer.new ≡ calls_by self push_verify buffer.old }
    {
        check(self.length, self.remembered, buffer)?;
        buffer[self.length - 1] = code;
        Ok(Builder {
            remembered: Some(code),
            ..self
        })
    }

    // Puts the verify form of the remembered opcode in its place, where it has one, and else appends OP_VERIFY; remembers what it wrote. Refused
    // with 1, 13 and, where it appends, 1 on what is built and 7.
    #[tactic(auto, unfolding(building::specs::Lent::calls, building::specs::Builder::push_verify))]
    pub fn push_verify(self, buffer: &mut [u8]) -> Built
        ensures { said_built result buffer.new ≡ calls_by self push_verify buffer.old }
    {
        match verify_form(self.remembered) {
            Some(code) => self.hand_back(self.replaced(buffer, code)),
            None => self.push_opcode(buffer, OP_VERIFY),
        }
    }

    // Takes the first bytes of a buffer over, and remembers their last instruction if it is an opcode and the plain walk refuses nothing.
    // Refused with 1 for a length over the limit and with 13 for one over the buffer's; the builder then has that length and remembers nothing.
    #[tactic(auto, unfolding(building::specs::Lent::calls, building::specs::Lent::builder_says, building::specs::Builder::last_if_opcode))]
    pub fn start(buffer: &[u8], length: usize) -> Built
        ensures { said_built result buffer.now ≡ calls takes_over length None buffer.now }
    {
        let answer = check(length, None, buffer);
        let remembered = match answer {
            Ok(()) => last_opcode(&buffer[..length]),
            Err(_) => None,
        };
        Built {
            answer,
            builder: Builder { length, remembered },
        }
    }

    // The used bytes, as a part of the buffer; the empty part at its front for a builder that a call would refuse.
    pub fn as_bytes<'a>(self, buffer: &'a [u8]) -> &'a [u8]
        ensures { Part result buffer.entry 0 (shown self.length self.remembered buffer.now) }
    {
        &buffer[..shown_len(self.length, self.remembered, buffer)]
    }
}
