// Chrome's calendar.
#![tactic(auto)]

ghost use Rattle.std.specs.Prelude.{◌≡◌};
ghost use Rattle.calendar.specs.Spans.{span_valid};

// How long a leaf may last, by the second in which it begins.
#[derive(Clone, Copy)]
pub struct Calendar;

impl Calendar {
    // Five dates, in seconds.
    pub const JULY_2012: u64 = 1341100800;

    pub const APRIL_2015: u64 = 1427846400;

    pub const MARCH_2018: u64 = 1519862400;

    pub const JULY_2019: u64 = 1561939200;

    pub const SEP_2020: u64 = 1598918400;

    // Five spans, in seconds.
    pub const TEN_YEARS: u64 = 315532800;

    pub const SIXTY_MONTHS: u64 = 157852800;

    pub const THIRTY_NINE_MONTHS: u64 = 102643200;

    pub const EIGHT_TWENTY_FIVE_DAYS: u64 = 71280000;

    pub const THREE_NINETY_EIGHT_DAYS: u64 = 34387200;

    // Whether a leaf may last from one second to another. The five lines stay side by side: document 01 names this form, constants and one function over them.
    pub fn span_valid(begin: u64, end: u64) -> bool
        ensures { result ≡ span_valid begin end }
    {
        if end < begin {
            return false;
        }
        let span = end - begin;
        ((begin < Self::JULY_2012) & (end < Self::JULY_2019) & (span <= Self::TEN_YEARS))
            | ((Self::JULY_2012 <= begin)
                & (begin < Self::APRIL_2015)
                & (span <= Self::SIXTY_MONTHS))
            | ((Self::APRIL_2015 <= begin)
                & (begin < Self::MARCH_2018)
                & (span <= Self::THIRTY_NINE_MONTHS))
            | ((Self::MARCH_2018 <= begin)
                & (begin < Self::SEP_2020)
                & (span <= Self::EIGHT_TWENTY_FIVE_DAYS))
            | ((Self::SEP_2020 <= begin) & (span <= Self::THREE_NINETY_EIGHT_DAYS))
    }
}
