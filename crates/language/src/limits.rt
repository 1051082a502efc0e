ghost use Rattle.std.specs.Prelude.{◌≡◌};
ghost use Rattle.language.specs.Constants.{file_limits, board_limits};

// Two hexadecimal digits spell a number below this.
pub const BYTE_RANGE: u32 = 256;

// "Int is 32 bits": they are below this; the place of the sign.
pub const INT_RANGE: u64 = 0x1_0000_0000;

pub const SIGN_BIT: u32 = 0x8000_0000;

pub const TEXT_MOST: usize = 16384;

pub const TYPES_MOST: usize = 8;

pub const FUNCTIONS_MOST: usize = 32;

pub const INPUTS_MOST: usize = 8;

pub const NODES_MOST: usize = 16;

pub const CHANNELS_MOST: usize = INPUTS_MOST + NODES_MOST;

pub const CONSTRUCTORS_MOST: usize = 8;

pub const FIELDS_MOST: usize = 4;

pub const SIZE_MOST: u32 = 64;

pub const PARAMETERS_MOST: usize = 8;

pub const CONDITIONS_MOST: u32 = 8;

pub const MEASURES_MOST: u32 = 8;

pub const VARIABLES_MOST: u32 = 32;

pub const SIZE_VARIABLES_MOST: u32 = 8;

pub const NESTING_MOST: u32 = 32;

pub const INSTANCES_MOST: usize = 1024;

pub const NUMBER_MOST: u32 = 65535;

pub const CELLS_MOST: u32 = 2048;

pub const SLOTS_MOST: u32 = 256;

pub const CALLS_MOST: u32 = 64;

pub const HEADER_WORDS: usize = 1 + CHANNELS_MOST;

pub const CELL_WORDS: usize = 2 + FIELDS_MOST;

pub const SCRATCH_WORDS: usize = 2048;

// The limits of a file, and of a board with its buffers.
#[derive(Clone, Copy)]
pub struct FileLimits {
    pub byte_range: u32,
    pub int_range: u64,
    pub sign_bit: u32,
    pub text: usize,
    pub types: usize,
    pub functions: usize,
    pub inputs: usize,
    pub nodes: usize,
    pub channels: usize,
    pub constructors: usize,
    pub fields: usize,
    pub size: u32,
    pub parameters: usize,
    pub conditions: u32,
    pub measures: u32,
    pub variables: u32,
    pub size_variables: u32,
    pub nesting: u32,
}

#[derive(Clone, Copy)]
pub struct BoardLimits {
    pub instances: usize,
    pub number: u32,
    pub cells: u32,
    pub slots: u32,
    pub calls: u32,
    pub header_words: usize,
    pub cell_words: usize,
    pub scratch_words: usize,
}

// The constants are the limits of the definitions.
pub fn file_limits() -> FileLimits
    ensures { result ≡ file_limits }
{
    FileLimits {
        byte_range: BYTE_RANGE,
        int_range: INT_RANGE,
        sign_bit: SIGN_BIT,
        text: TEXT_MOST,
        types: TYPES_MOST,
        functions: FUNCTIONS_MOST,
        inputs: INPUTS_MOST,
        nodes: NODES_MOST,
        channels: CHANNELS_MOST,
        constructors: CONSTRUCTORS_MOST,
        fields: FIELDS_MOST,
        size: SIZE_MOST,
        parameters: PARAMETERS_MOST,
        conditions: CONDITIONS_MOST,
        measures: MEASURES_MOST,
        variables: VARIABLES_MOST,
        size_variables: SIZE_VARIABLES_MOST,
        nesting: NESTING_MOST,
    }
}

pub fn board_limits() -> BoardLimits
    ensures { result ≡ board_limits }
{
    BoardLimits {
        instances: INSTANCES_MOST,
        number: NUMBER_MOST,
        cells: CELLS_MOST,
        slots: SLOTS_MOST,
        calls: CALLS_MOST,
        header_words: HEADER_WORDS,
        cell_words: CELL_WORDS,
        scratch_words: SCRATCH_WORDS,
    }
}
