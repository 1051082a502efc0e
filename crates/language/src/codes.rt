ghost use Rattle.std.specs.Prelude.{◌≡◌};
ghost use Rattle.language.specs.Constants.{kind_codes, type_codes, size_codes, expression_codes, operand_codes, text_codes};

// The codes of the rule file, document 01, "The rule file", and how many codes a set has. Each is tied by a proof to that of
// specs/Codes.antt, or to the table of the set.
// "types (01), functions (02), inputs (03), nodes (04)"; the first of them
pub const KIND_TYPE: u32 = 0x01;

pub const KIND_FUNCTION: u32 = 0x02;

pub const KIND_INPUT: u32 = 0x03;

pub const KIND_NODE: u32 = 0x04;

pub const KIND_FIRST: u32 = KIND_TYPE;

// "An input line is one line as above: `05`"
pub const KIND_INPUT_LINE: u32 = 0x05;

// Types: "`00`, `01` or `02 t`"
pub const TYPE_BOOL: u32 = 0x00;

pub const TYPE_INT: u32 = 0x01;

pub const TYPE_NAMED: u32 = 0x02;

pub const TYPE_FIRST: u32 = TYPE_BOOL;

pub const TYPE_FORMS: u32 = 3;

// "fields: `00` Bool, `01` Int, `02` the type itself, `03 t k` an earlier type t of size k"
pub const FIELD_BOOL: u32 = 0x00;

pub const FIELD_INT: u32 = 0x01;

pub const FIELD_OWN: u32 = 0x02;

pub const FIELD_OTHER: u32 = 0x03;

pub const FIELD_FIRST: u32 = FIELD_BOOL;

pub const FIELD_FORMS: u32 = 4;

// "A size is `01 k` (k one byte), `02 i` (size variable), `03 a b` (sum) or `04 a b` (difference)"
pub const SIZE_NUMBER: u32 = 0x01;

pub const SIZE_VARIABLE: u32 = 0x02;

pub const SIZE_SUM: u32 = 0x03;

pub const SIZE_DIFFERENCE: u32 = 0x04;

pub const SIZE_FIRST: u32 = SIZE_NUMBER;

pub const SIZE_FORMS: u32 = 4;

// "a relation (`00` =, `01` <, `02` ≤)"
pub const RELATION_EQUAL: u32 = 0x00;

pub const RELATION_LESS: u32 = 0x01;

pub const RELATION_AT_MOST: u32 = 0x02;

pub const RELATION_FIRST: u32 = RELATION_EQUAL;

pub const RELATIONS: u32 = 3;

// "`10 b` Bool; `11` Int; `12 v` variable; `13 c` channel; `14 c` its previous value; `15` let; `16` if; `17 o`, two
// operands"
pub const EXPR_BOOL: u32 = 0x10;

pub const EXPR_INT: u32 = 0x11;

pub const EXPR_VARIABLE: u32 = 0x12;

pub const EXPR_NOW: u32 = 0x13;

pub const EXPR_LAST: u32 = 0x14;

pub const EXPR_LET: u32 = 0x15;

pub const EXPR_IF: u32 = 0x16;

pub const EXPR_OPERATOR: u32 = 0x17;

// "`18 f` and arguments; `19 t c` and fields; `1A t` case; `1B` size, expression (adj); `1C k`: fit"
pub const EXPR_CALL: u32 = 0x18;

pub const EXPR_CONSTRUCT: u32 = 0x19;

pub const EXPR_CASE: u32 = 0x1A;

pub const EXPR_ADJUST: u32 = 0x1B;

pub const EXPR_FIT: u32 = 0x1C;

pub const EXPR_FIRST: u32 = EXPR_BOOL;

pub const EXPR_FORMS: u32 = 13;

// "Operators: `00` +, `01` −, `02` ×; `03` =, `04` <, `05` ≤ on Int; `06` and, `07` or"
pub const OPERATOR_PLUS: u32 = 0x00;

pub const OPERATOR_MINUS: u32 = 0x01;

pub const OPERATOR_TIMES: u32 = 0x02;

pub const OPERATOR_EQUAL: u32 = 0x03;

pub const OPERATOR_LESS: u32 = 0x04;

pub const OPERATOR_AT_MOST: u32 = 0x05;

pub const OPERATOR_AND: u32 = 0x06;

pub const OPERATOR_OR: u32 = 0x07;

pub const OPERATOR_FIRST: u32 = OPERATOR_PLUS;

pub const OPERATORS: u32 = 8;

// "Bool (00 or 01)"
pub const BOOL_FALSE: u32 = 0x00;

pub const BOOL_TRUE: u32 = 0x01;

pub const BOOL_FIRST: u32 = BOOL_FALSE;

pub const BOOLS: u32 = 2;

// "Lines of upper-case hexadecimal pairs": the base of their digits
pub const DIGIT_BASE: u32 = 16;

// "each ended by LF (0A)"
pub const LINE_FEED: u8 = 0x0A;

// Document 02, R-1: "spaces between pairs", "CR LF", "lines that start with a semicolon"
pub const SPACE: u8 = 0x20;

pub const CARRIAGE_RETURN: u8 = 0x0D;

pub const SEMICOLON: u8 = 0x3B;

#[derive(Clone, Copy)]
pub struct KindCodes {
    pub kind_type: u32,
    pub kind_function: u32,
    pub kind_input: u32,
    pub kind_node: u32,
    pub kind_first: u32,
    pub kind_input_line: u32,
}

#[derive(Clone, Copy)]
pub struct TypeCodes {
    pub type_bool: u32,
    pub type_int: u32,
    pub type_named: u32,
    pub type_first: u32,
    pub type_forms: u32,
    pub field_bool: u32,
    pub field_int: u32,
    pub field_own: u32,
    pub field_other: u32,
    pub field_first: u32,
    pub field_forms: u32,
}

#[derive(Clone, Copy)]
pub struct SizeCodes {
    pub size_number: u32,
    pub size_variable: u32,
    pub size_sum: u32,
    pub size_difference: u32,
    pub size_first: u32,
    pub size_forms: u32,
    pub relation_equal: u32,
    pub relation_less: u32,
    pub relation_at_most: u32,
    pub relation_first: u32,
    pub relations: u32,
}

#[derive(Clone, Copy)]
pub struct ExpressionCodes {
    pub expr_bool: u32,
    pub expr_int: u32,
    pub expr_variable: u32,
    pub expr_now: u32,
    pub expr_last: u32,
    pub expr_let: u32,
    pub expr_if: u32,
    pub expr_operator: u32,
    pub expr_call: u32,
    pub expr_construct: u32,
    pub expr_case: u32,
    pub expr_adjust: u32,
    pub expr_fit: u32,
    pub expr_first: u32,
    pub expr_forms: u32,
}

#[derive(Clone, Copy)]
pub struct OperandCodes {
    pub operator_plus: u32,
    pub operator_minus: u32,
    pub operator_times: u32,
    pub operator_equal: u32,
    pub operator_less: u32,
    pub operator_at_most: u32,
    pub operator_and: u32,
    pub operator_or: u32,
    pub operator_first: u32,
    pub operators: u32,
    pub bool_false: u32,
    pub bool_true: u32,
    pub bool_first: u32,
    pub bools: u32,
}

#[derive(Clone, Copy)]
pub struct TextCodes {
    pub digit_base: u32,
    pub line_feed: u8,
    pub space: u8,
    pub carriage_return: u8,
    pub semicolon: u8,
}

// The constants are the codes of the definitions: those of kinds of frames.
pub fn kind_codes() -> KindCodes
    ensures { result ≡ kind_codes }
{
    KindCodes {
        kind_type: KIND_TYPE,
        kind_function: KIND_FUNCTION,
        kind_input: KIND_INPUT,
        kind_node: KIND_NODE,
        kind_first: KIND_FIRST,
        kind_input_line: KIND_INPUT_LINE,
    }
}

// The constants are the codes of the definitions: those of types and fields.
pub fn type_codes() -> TypeCodes
    ensures { result ≡ type_codes }
{
    TypeCodes {
        type_bool: TYPE_BOOL,
        type_int: TYPE_INT,
        type_named: TYPE_NAMED,
        type_first: TYPE_FIRST,
        type_forms: TYPE_FORMS,
        field_bool: FIELD_BOOL,
        field_int: FIELD_INT,
        field_own: FIELD_OWN,
        field_other: FIELD_OTHER,
        field_first: FIELD_FIRST,
        field_forms: FIELD_FORMS,
    }
}

// The constants are the codes of the definitions: those of sizes and relations.
pub fn size_codes() -> SizeCodes
    ensures { result ≡ size_codes }
{
    SizeCodes {
        size_number: SIZE_NUMBER,
        size_variable: SIZE_VARIABLE,
        size_sum: SIZE_SUM,
        size_difference: SIZE_DIFFERENCE,
        size_first: SIZE_FIRST,
        size_forms: SIZE_FORMS,
        relation_equal: RELATION_EQUAL,
        relation_less: RELATION_LESS,
        relation_at_most: RELATION_AT_MOST,
        relation_first: RELATION_FIRST,
        relations: RELATIONS,
    }
}

// The constants are the codes of the definitions: those of expressions.
pub fn expression_codes() -> ExpressionCodes
    ensures { result ≡ expression_codes }
{
    ExpressionCodes {
        expr_bool: EXPR_BOOL,
        expr_int: EXPR_INT,
        expr_variable: EXPR_VARIABLE,
        expr_now: EXPR_NOW,
        expr_last: EXPR_LAST,
        expr_let: EXPR_LET,
        expr_if: EXPR_IF,
        expr_operator: EXPR_OPERATOR,
        expr_call: EXPR_CALL,
        expr_construct: EXPR_CONSTRUCT,
        expr_case: EXPR_CASE,
        expr_adjust: EXPR_ADJUST,
        expr_fit: EXPR_FIT,
        expr_first: EXPR_FIRST,
        expr_forms: EXPR_FORMS,
    }
}

// The constants are the codes of the definitions: those of operators and Bools.
pub fn operand_codes() -> OperandCodes
    ensures { result ≡ operand_codes }
{
    OperandCodes {
        operator_plus: OPERATOR_PLUS,
        operator_minus: OPERATOR_MINUS,
        operator_times: OPERATOR_TIMES,
        operator_equal: OPERATOR_EQUAL,
        operator_less: OPERATOR_LESS,
        operator_at_most: OPERATOR_AT_MOST,
        operator_and: OPERATOR_AND,
        operator_or: OPERATOR_OR,
        operator_first: OPERATOR_FIRST,
        operators: OPERATORS,
        bool_false: BOOL_FALSE,
        bool_true: BOOL_TRUE,
        bool_first: BOOL_FIRST,
        bools: BOOLS,
    }
}

// The constants are the codes of the definitions: those of text.
pub fn text_codes() -> TextCodes
    ensures { result ≡ text_codes }
{
    TextCodes {
        digit_base: DIGIT_BASE,
        line_feed: LINE_FEED,
        space: SPACE,
        carriage_return: CARRIAGE_RETURN,
        semicolon: SEMICOLON,
    }
}
