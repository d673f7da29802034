//! Calls from C as calls of an endpoint.
ghost use Rattle.modem_c.specs.Calls.{OutputsAreCalls};
ghost use Rattle.modem_c.specs.Entries.{EntriesBegin, EntriesGive};

use crate::dialects::CimbalotyDialect;
use crate::driver::Cimbaloty;
use crate::entries::CimbalotyEntry;

/// An output is a sequence of an endpoint's calls, over a line that took just its octets. So what
/// `modem_driver::laws::endpoints` says of an endpoint's calls holds of any sequence of calls from C.
#[tactic(auto, using(crate::proofs::GivenParts::outputs_are_calls))]
pub fn outputs()
    ensures { OutputsAreCalls }
{}

/// An entry begins with nothing sent and nothing read, and the parts of its text go out one after the other. What comes
/// behind the text stands in the clauses of `cimbaloty_enter_input_at`.
#[tactic(auto, using(crate::proofs::GivenTexts::begins, crate::proofs::GivenTexts::gives))]
pub fn entries()
    ensures begin { EntriesBegin }
    ensures give { EntriesGive }
{}

/// Takes what may pass from one thread to another.
fn crosses<T: Send>(_value: &T) {}

/// A driver, a dialect and an entry may pass from one thread to another, since they are `Send`: all that they own means the
/// same to each thread.
pub fn threads(driver: &Cimbaloty, dialect: &CimbalotyDialect, entry: &CimbalotyEntry) {
    crosses(driver);
    crosses(dialect);
    crosses(entry);
}
