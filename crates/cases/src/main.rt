// Document 01's cases that are no theorems, and damaged files, each answer on a line. First the reader's, number and frame, on small
// files and damaged ones; then the checker's, number, frame, heap, environment and stack, on listing 3 with boards that fit and that
// fall short by one, and on the two-frame file.
#![tactic(auto)]

use answers::{Answer, Board};
use checker::check_words;
use instance_list::LIST_WORDS;
use language::limits::{CALLS_MOST, CELLS_MOST, INSTANCES_MOST, SLOTS_MOST, TEXT_MOST};
use paugmeln::paugmeln_read;
use std::io;

// Number and frame.
fn show_reading(rt: &impl Print, text: &[u8]) -> io::Result<()> {
    let Answer { number, frame, .. } = paugmeln_read(text);
    println!(rt; "{number} {frame}")
}

// Document 01's two-frame file, listing 3, top10sum.
fn small_files(rt: &impl Print) -> io::Result<()> {
    show_reading(rt, b"03011100000000\n04011100000000170014011300\n")?;
    show_reading(
        rt,
        b"010200020102\n02020102000200030200010101010100020001001A001201020003020001011B030200010119000112001900001900011202180012001203\n02020102000001010100020001001A001201001000161703120012021001180112001203\n0201020002000402000101010101000402000101001A001200020004020001011B04020001011900001202\n03001000\n03011100000000\n040200051B01051900001613001B010519000113011900001C0414021800130112001800130118021402\n04001000180113011402\n",
    )?;
    show_reading(
        rt,
        b"0102000401010202\n0201020001010101000200001A0012000111000000001201\n0203010200020002000303010102000201020101000200010100020100161704180012021800120119000117001800120211000000011200120112021900011700180012011100000001120012021201\n0202020002000200040302000201010102010100020001010002010200011A001200020004030200020101011B040302000201010112011A001201020004030200020101011B0403020002010101120016170512031207180112031204180212051201180112071208180212001209\n020201020002000302000102010101000200001802190001110000000112001900001900001201\n0201020001010101000200001A0012000111000000001202\n0201020002000402000102010101020200001A001200020004020001021B0402000102190000180212031204\n020102000101010100020001001A0012000111000000001700170012021806120318061204\n03011100000000\n040200151B01151900001C13140118031300120016170513001804140114011803130018051401\n0401110000000018061301\n",
    )
}

// Document 02's reader: an empty line, CR LF, a comment, spaces between pairs and lower-case digits.
fn typed_texts(rt: &impl Print) -> io::Result<()> {
    show_reading(rt, b"03011100000000\n\n04011100000000170014011300\n")?;
    show_reading(rt, b"03011100000000\r\n04011100000000170014011300\n")?;
    show_reading(
        rt,
        b"; the dose\n03 01 11 00000000\n04 01 11 0000000a 1700 1401 1300\n",
    )
}

// Whole-text tests: no text, no last line feed, a letter that is no digit, half a byte, a space inside a pair, one behind the last.
fn damaged_texts(rt: &impl Print) -> io::Result<()> {
    show_reading(rt, b"")?;
    show_reading(rt, b"03011100000000\n04011100000000170014011300")?;
    show_reading(rt, b"0301g100000000\n")?;
    show_reading(rt, b"0301110000000\n04011100000000170014011300\n")?;
    show_reading(
        rt,
        b"; the dose\n03011100000000\n0401110000000 0170014011300\n",
    )?;
    show_reading(rt, b"03011100000000 \n04011100000000170014011300\n")
}

// Kinds of frames: one that is none, an input behind a node, a function behind an input, no node.
fn misplaced_frames(rt: &impl Print) -> io::Result<()> {
    show_reading(rt, b"050111\n04011100000000170014011300\n")?;
    show_reading(rt, b"04011100000000170014011300\n03011100000000\n")?;
    show_reading(
        rt,
        b"03011100000000\n0200001000\n04011100000000170014011300\n",
    )?;
    show_reading(rt, b"03011100000000\n")
}

// A frame that ends too early, one with a byte too many.
fn wrong_lengths(rt: &impl Print) -> io::Result<()> {
    show_reading(rt, b"03011100000000\n040111000000001700140113\n")?;
    show_reading(rt, b"03011100000000\n0401110000000017001401130000\n")
}

// Behind the kind: a type that is none, a type's size 0, a constructor of no type, a channel that is none, a function that
// is none, an operation that is none, a form that is none, a variable that is none.
fn wrong_bytes(rt: &impl Print) -> io::Result<()> {
    show_reading(rt, b"03051000\n04011100000000170014011300\n")?;
    show_reading(
        rt,
        b"010200020102\n0302000010\n04011100000000170014011300\n",
    )?;
    show_reading(rt, b"03011100000000\n0400190000\n")?;
    show_reading(rt, b"03011100000000\n04011100000000170014011302\n")?;
    show_reading(rt, b"03011100000000\n04011100000000180014011300\n")?;
    show_reading(rt, b"03011100000000\n04011100000000170914011300\n")?;
    show_reading(rt, b"03011100000000\n04011100000000FF\n")?;
    show_reading(rt, b"03011100000000\n040111000000001200\n")
}

// A type that no value has: each constructor has a field of the type itself.
fn empty_types(rt: &impl Print) -> io::Result<()> {
    show_reading(
        rt,
        b"01010102\n03011100000000\n04011100000000170014011300\n",
    )?;
    show_reading(
        rt,
        b"01020102020102\n03011100000000\n04011100000000170014011300\n",
    )
}

// A text with one character too many.
fn long_text(rt: &impl Print) -> io::Result<()> {
    let long = [b'0'; TEXT_MOST + 1];
    show_reading(rt, &long)
}

// The answers of the reader.
fn reads(rt: &impl Print) -> io::Result<()> {
    small_files(rt)?;
    typed_texts(rt)?;
    damaged_texts(rt)?;
    misplaced_frames(rt)?;
    wrong_lengths(rt)?;
    wrong_bytes(rt)?;
    empty_types(rt)?;
    long_text(rt)
}

// Number, frame, heap, environment and stack.
fn show_checking(
    rt: &impl Print,
    text: &[u8],
    cells: u32,
    slots: u32,
    calls: u32,
) -> io::Result<()> {
    let mut words = [0u32; LIST_WORDS];
    let b = Board {
        cells: cells,
        slots: slots,
        calls: calls,
    };
    let Answer {
        number,
        frame,
        heap,
        environment,
        stack,
    } = check_words(text, b, INSTANCES_MOST, &mut words);
    println!(rt; "{number} {frame} {heap} {environment} {stack}")
}

fn listing_3(rt: &impl Print, cells: u32, slots: u32, calls: u32) -> io::Result<()> {
    show_checking(
        rt,
        b"010200020102\n02020102000200030200010101010100020001001A001201020003020001011B030200010119000112001900001900011202180012001203\n02020102000001010100020001001A001201001000161703120012021001180112001203\n0201020002000402000101010101000402000101001A001200020004020001011B04020001011900001202\n03001000\n03011100000000\n040200051B01051900001613001B010519000113011900001C0414021800130112001800130118021402\n04001000180113011402\n",
        cells,
        slots,
        calls,
    )
}

// The answers of the checker.
fn checks(rt: &impl Print) -> io::Result<()> {
    listing_3(rt, 25, 18, 5)?;
    listing_3(rt, 24, 18, 5)?;
    listing_3(rt, 25, 17, 5)?;
    listing_3(rt, 25, 18, 4)?;
    show_checking(
        rt,
        b"03011100000000\n04011100000000170014011300\n",
        CELLS_MOST,
        SLOTS_MOST,
        CALLS_MOST,
    )
}

fn main(rt: HostRuntime) -> io::Result<()> {
    reads(&rt)?;
    checks(&rt)
}
