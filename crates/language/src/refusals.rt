ghost use Rattle.std.specs.Prelude.{◌≡◌};
ghost use Rattle.language.specs.Constants.{refusal_numbers};
ghost use Rattle.language.specs.RefusalNumbers.{number_of};

// The refusals of document 01, "By place", and of document 02. The number of each is tied by a proof to that of specs/Refusals.antt.
// "An answer is a number (0 where all is well), a frame (from 1; 0 where none is named)"
pub const NO_REFUSAL: u32 = 0;

pub const NO_FRAME: u32 = 0;

// Why something is refused.
#[derive(Clone, Copy, Debug, PartialEq, Eq)]
pub enum Refusal {
    // what no rule names: met only by cells and bytes that no file and no valid state has
    Unnamed = 0,
    // "over 16,384 characters"
    TextTooLong = 1,
    // "a line empty, odd, not hexadecimal, or without LF"
    BadLine = 2,
    // "kind unknown, out of order or one too many; no node"
    BadFrame = 3,
    // "bytes end early or go on"
    BadLength = 4,
    // "code outside its set"
    BadCode = 5,
    // "index names nothing allowed there"
    BadIndex = 6,
    // "a count, k, scope or nesting over its limit or below its least"
    OutsideLimits = 7,
    // "type without a self-free constructor"
    NoBaseConstructor = 8,
    // "plain types disagree; initial value of another form"
    TypesDisagree = 9,
    // "a type's size outside 1 to 64"
    SizeOutside = 10,
    // "sizes disagree, or adj lowers"
    SizesDisagree = 11,
    // "a condition fails"
    ConditionFails = 12,
    // "the measure doesn't fall"
    MeasureNotLess = 13,
    // "a 1,025th instance"
    TooManyInstances = 14,
    // "heap, environment, stack needed above the board's"
    HeapShort = 15,
    EnvironmentShort = 16,
    StackShort = 17,
    // "board over its maximum, a buffer too short, or state not as above for this file"
    NotLent = 18,
    // "input line wrong"
    BadInputLine = 19,
    // "heap, environment, stack spent"
    HeapSpent = 20,
    EnvironmentSpent = 21,
    StackSpent = 22,
    // "value too large"
    ValueTooLarge = 23,
    // Document 02, R-1: "lent buffer shorter than the strict text"
    BufferShort = 24,
    // Document 02, R-3: "some node reads itself through `13`, directly or by others"
    SelfReading = 25,
}

impl Refusal {
    // Its number.
    pub fn number(self) -> u32
        ensures { result ≡ number_of self }
    {
        self as u32
    }
}

// A refusal, and the frame that it names: from 1, or NO_FRAME.
#[derive(Clone, Copy, Debug, PartialEq, Eq)]
pub struct RefusalAt {
    pub refusal: Refusal,
    pub frame: u32,
}

#[derive(Clone, Copy)]
pub struct RefusalNumbers {
    pub no_refusal: u32,
    pub no_frame: u32,
    pub text_too_long: u32,
    pub bad_line: u32,
    pub bad_frame: u32,
    pub bad_length: u32,
    pub bad_code: u32,
    pub bad_index: u32,
    pub outside_limits: u32,
    pub no_base_constructor: u32,
    pub types_disagree: u32,
    pub size_outside: u32,
    pub sizes_disagree: u32,
    pub condition_fails: u32,
    pub measure_not_less: u32,
    pub too_many_instances: u32,
    pub heap_short: u32,
    pub environment_short: u32,
    pub stack_short: u32,
    pub not_lent: u32,
    pub bad_input_line: u32,
    pub heap_spent: u32,
    pub environment_spent: u32,
    pub stack_spent: u32,
    pub value_too_large: u32,
    pub buffer_short: u32,
    pub self_reading: u32,
}

// The constants are the numbers of the definitions.
pub fn refusal_numbers() -> RefusalNumbers
    ensures { result ≡ refusal_numbers }
{
    RefusalNumbers {
        no_refusal: NO_REFUSAL,
        no_frame: NO_FRAME,
        text_too_long: Refusal::TextTooLong.number(),
        bad_line: Refusal::BadLine.number(),
        bad_frame: Refusal::BadFrame.number(),
        bad_length: Refusal::BadLength.number(),
        bad_code: Refusal::BadCode.number(),
        bad_index: Refusal::BadIndex.number(),
        outside_limits: Refusal::OutsideLimits.number(),
        no_base_constructor: Refusal::NoBaseConstructor.number(),
        types_disagree: Refusal::TypesDisagree.number(),
        size_outside: Refusal::SizeOutside.number(),
        sizes_disagree: Refusal::SizesDisagree.number(),
        condition_fails: Refusal::ConditionFails.number(),
        measure_not_less: Refusal::MeasureNotLess.number(),
        too_many_instances: Refusal::TooManyInstances.number(),
        heap_short: Refusal::HeapShort.number(),
        environment_short: Refusal::EnvironmentShort.number(),
        stack_short: Refusal::StackShort.number(),
        not_lent: Refusal::NotLent.number(),
        bad_input_line: Refusal::BadInputLine.number(),
        heap_spent: Refusal::HeapSpent.number(),
        environment_spent: Refusal::EnvironmentSpent.number(),
        stack_spent: Refusal::StackSpent.number(),
        value_too_large: Refusal::ValueTooLarge.number(),
        buffer_short: Refusal::BufferShort.number(),
        self_reading: Refusal::SelfReading.number(),
    }
}
