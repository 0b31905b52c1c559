ghost use Rattle.std.specs.Prelude.{◌≡◌, ℕ, vec_len, OnOk, IfOk, string_bytes};
ghost use Rattle.catalogue.specs.Counts.{took, missed, has};
ghost use Rattle.catalogue.specs.Firing.{spoken};
ghost use Rattle.catalogue.specs.Known.{learned, known, Learned};
ghost use Rattle.catalogue.specs.Replies.{taken_reply, refused_reply, line_number, reply, counts_reply};
ghost use Rattle.catalogue.specs.Texts.{place_of};
ghost use Rattle.grammar.specs.Readings.{said};
ghost use Rattle.reading.specs.Reading.{reading};

use crate::firing::firing_truth;
use crate::text::{Writer, names_text, readable};
use grammar::line::Line;
use grammar::name::Name;
use reading::fault::{RuleFault, TextFault};
use reading::reader::read;
use std::alloc::{AllocError, Global};

/// What has been found so far.
#[derive(Drop)]
pub struct Report {
    taken: u64,
    refused: u64,
    names: Vec<Name>,
}

/// The place of a fault in its line, where it has one.
fn place(fault: RuleFault) -> Option<usize>
    ensures { result ≡ place_of fault }
{
    match fault {
        RuleFault::Text(TextFault::WrongByte(place) | TextFault::NameTooLong(place)) => Some(place),
        RuleFault::OutOfGrammar(place) => Some(place),
        RuleFault::Text(TextFault::LineTooLong) | RuleFault::TooManyNodes(_) => None,
    }
}

impl Report {
    /// No lines and no names.
    pub fn new(heap: Global) -> Self
        ensures taken { result.taken ≡ 0 }
        ensures refused { result.refused ≡ 0 }
        ensures names { vec_len result.names ≡ 0 }
    {
        Report {
            taken: 0,
            refused: 0,
            names: Vec::new(heap),
        }
    }

    /// Takes or refuses one line, and says so.
    pub fn enter(&mut self, heap: Global, line: &[u8]) -> Result<String, AllocError>
        ensures taken { self.new.taken ≡ took (reading line.now) self.old.taken }
        ensures refused { self.new.refused ≡ missed (reading line.now) self.old.refused }
        ensures names { OnOk result (self.new.names.items ≡ known (reading line.now) self.old.names.items) }
        ensures learned { OnOk result (Learned (reading line.now) self.old.names.items self.new.names.items) }
        ensures reply { IfOk result (λ s. string_bytes s ≡ reply (line_number self.old.taken self.old.refused) line.now (reading line.now)) }
    {
        let number = self.taken.saturating_add(self.refused).saturating_add(1);
        match read(line) {
            Ok(rule) => {
                self.taken = self.taken.saturating_add(1);
                learn(&mut self.names, &rule)?;
                let text = taken_text(heap, &rule)?;
                format!(in heap; "{number}: {text}")
            }
            Err(fault) => {
                self.refused = self.refused.saturating_add(1);
                let refusal = refusal_text(heap, line, fault)?;
                format!(in heap; "{number}: {refusal}")
            }
        }
    }

    /// The counts at the end.
    pub(crate) fn summary(&self, heap: Global) -> Result<String, AllocError>
        ensures { IfOk result (λ s. string_bytes s ≡ counts_reply self.now.taken self.now.refused (vec_len self.now.names)) }
    {
        let taken = self.taken;
        let refused = self.refused;
        let names = self.names.len();
        format!(in heap; "{taken} taken, {refused} refused, {names} names\n")
    }
}

/// Whether a name stands in a list.
fn knows(names: &[Name], name: &Name) -> bool
    ensures { result ≡ has names.now name.now }
{
    names.iter().any(|known| known.is(name))
}

/// Keeps the names of a rule that are new.
fn learn(names: &mut Vec<Name>, rule: &Line) -> Result<(), AllocError>
    ensures { OnOk result (names.new.items ≡ learned names.old.items (said rule.now).names) }
{
    for named in rule.names() {
        if !knows(names.as_slice(), &named.name) {
            names.push(named.name)?;
        }
    }
    Ok(())
}

/// A truth as it is printed: as an answer, where a `bool` prints as true or false.
fn word(truth: bool) -> &'static str
    ensures { result.now ≡ spoken truth }
{
    if truth { "yes" } else { "no" }
}

/// A rule: as read, in normal form, and its truth when every lot fires alone and when all fire together.
fn taken_text(heap: Global, rule: &Line) -> Result<String, AllocError>
    ensures { IfOk result (λ s. string_bytes s ≡ taken_reply (said rule.now)) }
{
    let names = names_text(heap, rule)?;
    let writer = Writer {
        heap,
        names: &names,
    };
    let formula = rule.formula();
    let text = writer.tree(&formula.table())?;
    let normal = writer.tree(&formula.normal().table())?;
    let alone = word(firing_truth(formula, false));
    let together = word(firing_truth(formula, true));
    format!(in heap; "{text}\n  normal form {normal}\n  alone {alone}, together {together}\n")
}

/// A refusal: its number, the number it carries, its layer, and the line with a mark under the place.
fn refusal_text(heap: Global, line: &[u8], fault: RuleFault) -> Result<String, AllocError>
    ensures { IfOk result (λ s. string_bytes s ≡ refused_reply line.now fault) }
{
    let number = fault.number();
    let carried = fault.carried();
    let layer = fault.layer();
    let shown = readable(heap, line)?;
    let mut text = format!(in heap; "R {number} {carried} {layer}\n  |{shown}|\n")?;
    if let Some(at) = place(fault) {
        text.push_str("   ")?;
        for _ in 0..at {
            text.push(' ')?;
        }
        text.push_str("^\n")?;
    }
    Ok(text)
}
