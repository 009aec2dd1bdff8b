// What the first bytes of a recording claim to be, when more may follow them.
#![tactic(auto)]

ghost use Rattle.std.specs.Prelude.{◌≡◌};
ghost use Rattle.front.specs.Claim.{claim, counted};

use macm::Form;
use octets::Fit;

// Nothing that a message begins with; nothing to say with fewer bytes than so many; a message of so many bytes.
#[derive(Clone, Copy, Debug, PartialEq, Eq)]
pub enum Claim {
    Nothing,
    AtLeast(usize),
    Long(usize),
}

// What the count byte says, of bytes that begin with the form's sync string.
#[tactic(auto, unfolding(crate::specs::Claim::counted))]
fn counts(form: Form, bytes: &[u8]) -> Claim
    ensures { result ≡ counted form bytes.now }
{
    let at = macm::count_at(form);
    if at < bytes.len() {
        return Claim::Long(macm::size_of(form, bytes[at]));
    }
    Claim::AtLeast(at + 1)
}

// What the first bytes claim to be. Only the form's places matter, so its own fields are zero. A form is read of a whole message elsewhere; here the bytes may
// end inside the sync string.
#[tactic(auto, unfolding(crate::specs::Claim::claim, crate::specs::Claim::claim_by))]
pub fn claims(bytes: &[u8]) -> Claim
    ensures { result ≡ claim bytes.now }
{
    match octets::fits(&macm::NEW_SYNC, bytes) {
        Fit::Whole => counts(Form::New { signal: 0, tfom: 0 }, bytes),
        Fit::Part => Claim::AtLeast(bytes.len() + 1),
        Fit::Bad => match octets::fits(&macm::OLD_SYNC, bytes) {
            Fit::Whole => counts(Form::Old { version: 0 }, bytes),
            Fit::Part => Claim::AtLeast(bytes.len() + 1),
            Fit::Bad => Claim::Nothing,
        },
    }
}
