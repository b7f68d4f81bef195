//! Options that are set to numbers, and how numbers are read.
ghost use Rattle.std.specs.Prelude.{◌≡◌, ◌≤◌, List, ℕ, MatchOption, None, Option};
ghost use Rattle.merc_words.specs.Words.{IsNumberIn, IsNumberOf, greatest, least};
ghost use Rattle.merc_words.specs.Parts.{IsSetTo, text_behind};

// The most digits of a number.
const DIGIT_LIMIT: usize = 10;

/// An option that is set to a number.
#[derive(Clone, Copy)]
pub enum Setting {
    /// How many workers take part in a run, 1 to 64.
    Workers,
    /// The steps that a run may take, 0 to 1,000,000,000.
    Steps,
    /// The answers behind which a run is stopped, 1 to 1,000,000,000.
    Max,
}

/// What the options are set to. An option that is not given sets nothing.
#[derive(Clone, Copy, PartialEq, Eq)]
pub struct Settings {
    /// How many workers take part in a run, 1 to 64.
    pub workers: Option<u64>,
    /// The steps that a run may take, 0 to 1,000,000,000.
    pub steps: Option<u64>,
    /// The answers behind which a run is stopped, 1 to 1,000,000,000.
    pub most: Option<u64>,
}

impl Setting {
    // The least number that it can be set to.
    fn least(self) -> u64
        ensures { result ≡ least self }
    {
        match self {
            Setting::Workers | Setting::Max => 1,
            Setting::Steps => 0,
        }
    }

    // The greatest number that it can be set to.
    #[tactic(auto, unfolding(crate::specs::Words::greatest))]
    fn greatest(self) -> u64
        ensures number { result ≡ greatest self }
        ensures small { result ≤ 1000000000 }
    {
        match self {
            Setting::Workers => 64,
            Setting::Steps | Setting::Max => 1_000_000_000,
        }
    }
}

/// The number that a text spells, where it is not less than the first bound and not greater than the second.
pub fn number_in(low: u64, high: u64, text: &[u8]) -> Option<u64>
    requires { high ≤ 1000000000 }
    ensures { MatchOption result ((number : ℕ) → IsNumberIn low high text.now number → ⊥) (IsNumberIn low high text.now) }
{
    if text.is_empty() || text.len() > DIGIT_LIMIT {
        return None;
    }
    let mut number = 0;
    for byte in text {
        if !byte.is_ascii_digit() {
            return None;
        }
        number = 10 * number + u64::from(*byte - b'0');
        if number > high {
            return None;
        }
    }
    if number < low { None } else { Some(number) }
}

/// The number that an option is set to by its text, if it has one; `None` where the text spells no number that it can be set to.
pub fn set_to(setting: Setting, text: Option<&str>) -> Option<Option<u64>>
    ensures { MatchOption result ((number : Option ℕ) → IsSetTo setting (text_behind text.entry) number → ⊥) (IsSetTo setting (text_behind text.entry)) }
{
    let Some(text) = text else {
        return Some(None);
    };
    let number = number_in(setting.least(), setting.greatest(), text.as_bytes())?;
    Some(Some(number))
}
