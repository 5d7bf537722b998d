// What the other crates say of a script that is within their limit, where nothing is refused.
ghost use Rattle.std.specs.Prelude.{◌≡◌, ◌↔◌, ◌++◌, true, false, List, ℕ, ◌≤◌, length, drop, IsSome, IfSome};
ghost use Rattle.laws.specs.Said.{answers};
ghost use Rattle.refusal.specs.Answer.{said};
ghost use Rattle.templates.specs.Answer.{said_template};
ghost use Rattle.templates.specs.Kind.{kind_of};
ghost use Rattle.counts.specs.Count.{get_sig_op_count};
ghost use Rattle.dust.specs.Dust.{dust_of};
ghost use Rattle.asm.specs.Asm.{text_of};
ghost use Rattle.screen.specs.Screen.{most_shown};

use crate::MAX_INSPECTED;
use std::marker::Model;
use templates::Template;

// A script within the inspector's limit, which is within that of every entry.
#[derive(Drop)]
pub(crate) struct Inspected<'a> {
    script: &'a [u8],
}

impl<'a> Model for Inspected<'a> {
    ghost Value = { List ℕ };

    ghost view = { λ s. s.script.now };

    ghost invariant = { λ s. length s.script.now ≤ most_shown };
}

impl<'a> Inspected<'a> {
    // The script, where it is within the limit.
    pub(crate) fn new(script: &'a [u8]) -> Option<Inspected<'a>>
        ensures within { IsSome result ↔ (length script.now ≤ most_shown) }
        ensures same { IfSome result (λ inspected. inspected ≡ script.now) }
    {
        if MAX_INSPECTED < script.len() {
            return None;
        }
        Some(Inspected { script })
    }

    // How many bytes it has.
    pub(crate) fn len(&self) -> usize
        ensures { result ≡ length self.now }
    {
        self.script.len()
    }

    // Its kind.
    #[tactic(auto, using(crate::proofs::Within::kinded, refusal::proofs::Same::told_by))]
    pub(crate) fn kind(&self) -> Template
        ensures { said_template result ≡ kind_of self.now }
    {
        templates::kind(self.script).unwrap_or(Template::Other)
    }

    // Its accurate count.
    #[tactic(auto, using(crate::proofs::Within::counted, refusal::proofs::Same::told))]
    pub(crate) fn accurate(&self) -> u64
        ensures { result ≡ get_sig_op_count true self.now }
    {
        counts::count_sigops(self.script).unwrap_or(0) as u64
    }

    // The other count.
    #[tactic(auto, using(crate::proofs::Within::counted, refusal::proofs::Same::told))]
    pub(crate) fn legacy(&self) -> u64
        ensures { result ≡ get_sig_op_count false self.now }
    {
        counts::count_sigops_legacy(self.script).unwrap_or(0) as u64
    }

    // Its dust figure, at the default rate.
    #[tactic(auto, using(crate::proofs::Within::dusted, refusal::proofs::Same::told))]
    pub(crate) fn dust(&self) -> u64
        ensures { result ≡ dust_of self.now }
    {
        dust::minimal_non_dust(self.script).unwrap_or(0)
    }

    // How many bytes its text has.
    #[tactic(auto, using(crate::proofs::Within::measured, refusal::proofs::Same::told))]
    pub(crate) fn text_len(&self) -> usize
        ensures { result ≡ length (text_of self.now) }
    {
        text::asm_len(self.script).unwrap_or(0)
    }

    // Writes its text to the front of a buffer that has room for it, and answers how many bytes it has.
    #[tactic(auto, using(crate::proofs::Within::texted, refusal::proofs::Same::told))]
    pub(crate) fn write_text(&self, out: &mut [u8]) -> usize
        requires { length (text_of self.now) ≤ length out.old }
        ensures len { result ≡ length (text_of self.now) }
        ensures left { out.new ≡ text_of self.now ++ drop (length (text_of self.now)) out.old }
    {
        text::write_asm(self.script, out).unwrap_or(0)
    }
}
