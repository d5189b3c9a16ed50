// A refusal of documents 01 and 02: the input at fault, the number, the place, and the byte within a triple.
#![tactic(auto)]

ghost use Rattle.std.specs.Prelude.{◌≡◌};
ghost use Rattle.refusal.specs.Refusal.{input_number, chart_refusal, sheet_refusal, lent_refusal, of_second};

#[derive(Clone, Copy, PartialEq, Eq)]
pub enum Input {
    Chart,
    Sheet,
    BufferOrName,
    SecondChart,
}

// The document's number of the input at fault.
impl From<Input> for u8 {
    ghost from_gives = { λ input number. number ≡ input_number input };

    fn from(input: Input) -> u8 {
        match input {
            Input::Chart => 0,
            Input::Sheet => 1,
            Input::BufferOrName => 2,
            Input::SecondChart => 3,
        }
    }
}

#[derive(Clone, Copy, PartialEq, Eq)]
pub struct Refusal {
    pub input: Input,
    pub number: u8,
    pub place: usize,
    pub byte: u8,
}

impl Refusal {
    // The refusal of a chart. The byte is that within a triple where a triple's byte is out of range, else 0.
    #[inline]
    pub fn of_chart(number: u8, place: usize, byte: u8) -> Refusal
        ensures { result ≡ chart_refusal number place byte }
    {
        Refusal {
            input: Input::Chart,
            number,
            place,
            byte,
        }
    }

    // The refusal of a sheet.
    #[inline]
    pub fn of_sheet(number: u8, place: usize) -> Refusal
        ensures { result ≡ sheet_refusal number place }
    {
        Refusal {
            input: Input::Sheet,
            number,
            place,
            byte: 0,
        }
    }

    // The refusal of the lent buffer, of a name, or of two charts taken together: its place is 0.
    #[inline]
    pub fn of_lent(number: u8) -> Refusal
        ensures { result ≡ lent_refusal number }
    {
        Refusal {
            input: Input::BufferOrName,
            number,
            place: 0,
            byte: 0,
        }
    }

    // A chart's refusal, given of the second chart of two: the number, the place and the byte stay.
    #[inline]
    pub fn of_second(self) -> Refusal
        ensures { result ≡ of_second self }
    {
        Refusal {
            input: Input::SecondChart,
            ..self
        }
    }
}
