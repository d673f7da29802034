//! The numbers that the words give.
ghost use Rattle.std.specs.Prelude.{◌≡◌, IfOk, codes, decimal, option_map};
ghost use Rattle.clap.specs.Words.{found_of, one_text};
ghost use Rattle.modemctl.specs.Words.{IsNumberOf};

use clap::ArgMatches;
use itoa::Buffer;
use mux_frame::N1;
use std::str::FromStr;

/// The callers of a bench where no word gives them.
const DEFAULT_CALLERS: u16 = 2;

/// The octets under way each way where no word gives them.
const DEFAULT_CUT: u16 = 64;

/// The numbers that the options give, or else the defaults.
#[derive(Clone, Copy)]
pub struct Numbers {
    pub n1: u16,
    pub callers: u8,
    pub cut: u16,
}

/// A number that is written in decimal, without a sign and leading zeros.
#[derive(Drop)]
pub struct Decimal {
    pub number: u16,
}

/// A text isn't a decimal number.
#[derive(Drop)]
pub struct NotDecimal;

impl FromStr for Decimal {
    type Err = NotDecimal;

    ghost use Rattle.std.specs.Prelude.{◌≡◌, IfOk, decimal};

    ghost from_str_gives = { λ text r. IfOk r (λ d. text ≡ decimal d.number) };

    fn from_str(text: &str) -> Result<Decimal, NotDecimal> {
        let Ok(number) = text.parse::<u16>() else {
            return Err(NotDecimal);
        };
        if Buffer::new().format(number) == text {
            Ok(Decimal { number })
        } else {
            Err(NotDecimal)
        }
    }
}

/// The number that an option gives, and else the default.
pub fn number_of(matches: &ArgMatches<'_>, option: &str, default: u16) -> Result<u16, NotDecimal>
    ensures { IfOk result (IsNumberOf default (one_text (found_of matches.now) option.now)) }
{
    match matches.try_get_one::<Decimal>(option) {
        Ok(Some(given)) => Ok(given.number),
        Ok(None) => Ok(default),
        Err(refused) => Err(refused),
    }
}

/// The number that an option without a default gives, if it gives one.
pub fn seconds_of(matches: &ArgMatches<'_>, option: &str) -> Result<Option<u16>, NotDecimal>
    ensures { IfOk result (λ n. option_map decimal n ≡ one_text (found_of matches.now) option.now) }
{
    match matches.try_get_one::<Decimal>(option) {
        Ok(Some(given)) => Ok(Some(given.number)),
        Ok(None) => Ok(None),
        Err(refused) => Err(refused),
    }
}

/// The callers of a bench.
fn callers_of(matches: &ArgMatches<'_>) -> Result<u8, NotDecimal>
    ensures { IfOk result (IsNumberOf 2 (one_text (found_of matches.now) (codes "callers"))) }
{
    let number = number_of(matches, "callers", DEFAULT_CALLERS)?;
    u8::try_from(number).map_err(|_| NotDecimal)
}

/// The numbers that the words give. Refused: the option of which the text is no number.
pub fn numbers_of(matches: &ArgMatches<'_>) -> Result<Numbers, &'static str>
    ensures n1 { IfOk result
        (λ numbers. IsNumberOf 31 (one_text (found_of matches.now) (codes "n1")) numbers.n1) }
    ensures callers { IfOk result
        (λ numbers. IsNumberOf 2 (one_text (found_of matches.now) (codes "callers")) numbers.callers) }
    ensures cut { IfOk result
        (λ numbers. IsNumberOf 64 (one_text (found_of matches.now) (codes "cut")) numbers.cut) }
{
    let Ok(n1) = number_of(matches, "n1", N1::DEFAULT) else {
        return Err("n1");
    };
    let Ok(callers) = callers_of(matches) else {
        return Err("callers");
    };
    let Ok(cut) = number_of(matches, "cut", DEFAULT_CUT) else {
        return Err("cut");
    };
    Ok(Numbers { n1, callers, cut })
}
