//! The rules that a complaint names.
ghost use Rattle.std.specs.Prelude.{◌≡◌};
ghost use Rattle.modem_show.specs.Rules.{breaks, rule_words};

use crate::faults::Faults;

/// What a complaint is about.
#[derive(Clone, Copy)]
pub enum Rule {
    /// An answer that nothing waits for.
    Unasked,
    /// Data on a connection that isn't open.
    Unopened,
    /// Data on a connection that is stopped.
    Unstopped,
    /// More information than N1 allows.
    TooLong,
    /// A control message as data.
    Astray,
    /// A frame that asks and was never answered.
    Unanswered,
    /// A command while another one is under way.
    Overlapping,
    /// A final code that answers no command.
    Unprompted,
    /// A command without an answer.
    Unfinished,
}

impl Rule {
    /// The rules of single frames.
    pub const OF_FRAMES: [Rule; 5] = [
        Rule::Unasked,
        Rule::Unopened,
        Rule::Unstopped,
        Rule::TooLong,
        Rule::Astray,
    ];

    /// The rule in words.
    pub fn words(self) -> &'static str
        ensures { result.now ≡ rule_words self }
    {
        match self {
            Rule::Unasked => "an answer that nothing waits for: it came twice, or unasked",
            Rule::Unopened => "data on a connection that isn't open",
            Rule::Unstopped => "data on a connection that is stopped",
            Rule::TooLong => "more information than N1 allows",
            Rule::Astray => "a control message as data",
            Rule::Unanswered => "never answered",
            Rule::Overlapping => "a command while another one is under way",
            Rule::Unprompted => "an answer without a command",
            Rule::Unfinished => "a command without an answer",
        }
    }
}

impl Faults {
    /// Whether the frame breaks this rule. It can break those of single frames.
    pub fn breaks(self, rule: Rule) -> bool
        ensures { result ≡ breaks self rule }
    {
        match rule {
            Rule::Unasked => self.unasked,
            Rule::Unopened => self.unopened,
            Rule::Unstopped => self.unstopped,
            Rule::TooLong => self.too_long,
            Rule::Astray => self.astray,
            _ => false,
        }
    }
}
