//! Grammars of formats and protocols in use: each function is a contract and a body, and nothing else is written.
//!
//! A contract says the grammar: whatever the function answers, it answers by that grammar, with the place of each refusal.
ghost use Rattle.std.specs.Prelude.{◌≡◌, codes, false, true};
ghost use Rattle.nom.specs.BitWords as Bits;
ghost use Rattle.nom.specs.Bytes as Bytes;
ghost use Rattle.nom.specs.Texts.{Parses, alt_of, char_of, crlf_of, delimited_of, digit1_of, escaped_of, hex_digit1_of, is_not_of, line_ending_of};
ghost use Rattle.nom.specs.Texts.{many0_of, not_line_ending_of, one_of_of, opt_of, or_of, pair_of, preceded_of, recognize_of, separated_list0_of};
ghost use Rattle.nom.specs.Texts.{separated_list1_of, separated_pair_of, space0_of, tag_of, terminated_of, tuple_of_five, tuple_of_four};
ghost use Rattle.nom.specs.Texts.{tuple_of_three, u32_of, u64_of, u8_of};
ghost use Rattle.nom.specs.Words as Words;
ghost use Rattle.example_grammars.specs.Field.{is_more};

use nom::bits::{bits, bool, take as take_bits};
use nom::branch::alt;
use nom::bytes::{escaped, is_not, tag, take, take_while_m_n};
use nom::character::{
    alpha1, char, crlf, digit1, hex_digit1, line_ending, not_line_ending, one_of, space0, u8, u32,
    u64,
};
use nom::combinator::{opt, recognize};
use nom::error::Error;
use nom::multi::{length_data, many_till, many0, separated_list0, separated_list1};
use nom::number::{be_u8, be_u16, be_u32};
use nom::sequence::{delimited, pair, preceded, separated_pair, terminated};
use nom::{Complete, IResult, Parser, Streaming, parse_in};
use std::alloc::Global;

/// An IPv4 address, as `192.168.0.1`.
pub fn ipv4(input: &str) -> IResult<&str, (u8, u8, u8, u8)>
    ensures { Parses (tuple_of_four (terminated_of u8_of (char_of 46)) (terminated_of u8_of (char_of 46))
        (terminated_of u8_of (char_of 46)) u8_of) false input.entry result }
{
    (
        terminated(u8(), char('.')),
        terminated(u8(), char('.')),
        terminated(u8(), char('.')),
        u8(),
    )
        .parse_complete(input)
}

/// A semantic version, as `1.0.12-beta.2+linux`: its three numbers, what comes before it, and its build.
pub fn version(input: &str) -> IResult<&str, (u64, u64, u64, Option<&str>, Option<&str>)>
    ensures { Parses (tuple_of_five (terminated_of u64_of (char_of 46)) (terminated_of u64_of (char_of 46)) u64_of
        (opt_of (preceded_of (char_of 45) (is_not_of (codes "+")))) (opt_of (preceded_of (char_of 43) (is_not_of (codes " ")))))
        false input.entry result }
{
    let before = opt(preceded(char('-'), is_not("+")));
    let build = opt(preceded(char('+'), is_not(" ")));
    (
        terminated(u64(), char('.')),
        terminated(u64(), char('.')),
        u64(),
        before,
        build,
    )
        .parse_complete(input)
}

/// A date and a time, as `2026-11-28T09:30:00`.
pub fn date_time(input: &str) -> IResult<&str, ((u32, u8, u8), (u8, u8, u8))>
    ensures { Parses (separated_pair_of
        (tuple_of_three (terminated_of u32_of (char_of 45)) (terminated_of u8_of (char_of 45)) u8_of) (char_of 84)
        (tuple_of_three (terminated_of u8_of (char_of 58)) (terminated_of u8_of (char_of 58)) u8_of)) false input.entry result }
{
    let date = (
        terminated(u32(), char('-')),
        terminated(u8(), char('-')),
        u8(),
    );
    let time = (
        terminated(u8(), char(':')),
        terminated(u8(), char(':')),
        u8(),
    );
    parse_in::<Complete, _, _>(separated_pair(date, char('T'), time), input)
}

/// The zone of a time: `Z`, or an offset as `+02:00`.
pub fn zone(input: &str) -> IResult<&str, &str>
    ensures { Parses (alt_of (or_of (tag_of (codes "Z"))
        (recognize_of (pair_of (one_of_of (codes "+-")) (separated_pair_of digit1_of (char_of 58) digit1_of))))) false input.entry result }
{
    let offset = pair(one_of("+-"), separated_pair(digit1(), char(':'), digit1()));
    alt((tag("Z"), recognize(offset))).parse_complete(input)
}

/// A colour in hexadecimal digits, as `#2f14df`.
pub fn hex_colour(input: &str) -> IResult<&str, &str>
    ensures { Parses (preceded_of (char_of 35) hex_digit1_of) false input.entry result }
{
    preceded(char('#'), hex_digit1()).parse_complete(input)
}

/// The parts of a URI: scheme, authority, path, query and fragment.
pub fn uri(
    input: &str,
) -> IResult<&str, (&str, Option<&str>, Option<&str>, Option<&str>, Option<&str>)>
    ensures { Parses (tuple_of_five (terminated_of (is_not_of (codes ":/?#")) (char_of 58))
        (opt_of (preceded_of (tag_of (codes "//")) (is_not_of (codes "/?#")))) (opt_of (is_not_of (codes "?#")))
        (opt_of (preceded_of (char_of 63) (is_not_of (codes "#")))) (opt_of (preceded_of (char_of 35) (is_not_of (codes " "))))) false input.entry result }
{
    let scheme = terminated(is_not(":/?#"), char(':'));
    let authority = opt(preceded(tag("//"), is_not("/?#")));
    let query = opt(preceded(char('?'), is_not("#")));
    let fragment = opt(preceded(char('#'), is_not(" ")));
    let uri = (scheme, authority, opt(is_not("?#")), query, fragment);
    parse_in::<Complete, _, _>(uri, input)
}

/// The request line of HTTP/1.1: method, target, and the two numbers of the version. More input may come.
pub fn request_line(input: &[u8]) -> IResult<&[u8], (&[u8], &[u8], (&[u8], &[u8]))>
    ensures { Bytes.Parses (Bytes.tuple_of_three (Bytes.terminated_of Bytes.alpha1_of (Bytes.char_of 32))
        (Bytes.terminated_of (Bytes.is_not_of (codes " ")) (Bytes.char_of 32))
        (Bytes.delimited_of (Bytes.tag_of (codes "HTTP/")) (Bytes.separated_pair_of Bytes.digit1_of (Bytes.char_of 46) Bytes.digit1_of) Bytes.crlf_of))
        true input.entry result }
{
    let version = separated_pair(digit1(), char('.'), digit1());
    (
        terminated(alpha1(), char(' ')),
        terminated(is_not(" "), char(' ')),
        delimited(tag("HTTP/"), version, crlf()),
    )
        .parse(input)
}

/// A header field: its name, and its value up to the end of the line.
pub fn header_field(input: &str) -> IResult<&str, (&str, &str)>
    ensures { Parses (separated_pair_of (is_not_of (codes ":\r\n")) (pair_of (char_of 58) space0_of) (terminated_of not_line_ending_of crlf_of))
        true input.entry result }
{
    let colon = pair(char(':'), space0());
    let value = terminated(not_line_ending(), crlf());
    separated_pair(is_not(":\r\n"), colon, value).parse(input)
}

/// The line before a chunk of a chunked body: its size in hexadecimal digits, and an extension where there is one.
pub fn chunk_line(input: &[u8]) -> IResult<&[u8], (&[u8], Option<&[u8]>)>
    ensures { Bytes.Parses (Bytes.terminated_of (Bytes.pair_of Bytes.hex_digit1_of
        (Bytes.opt_of (Bytes.preceded_of (Bytes.char_of 59) (Bytes.is_not_of (codes "\r\n"))))) Bytes.crlf_of) true input.entry result }
{
    let extension = preceded(char(';'), is_not("\r\n"));
    let line = terminated(pair(hex_digit1(), opt(extension)), crlf());
    parse_in::<Streaming, _, _>(line, input)
}

/// Whether another byte of a length follows.
fn more(byte: u8) -> bool
    ensures { result ≡ is_more byte }
{
    byte > 127
}

/// The fixed header of MQTT: the kind with its flags, and the bytes of the remaining length.
pub fn fixed_header(input: &[u8]) -> IResult<&[u8], (u8, &[u8])>
    ensures { Bytes.Parses (Bytes.pair_of Bytes.be_u8_of
        (Bytes.recognize_of (Bytes.pair_of (Bytes.take_while_m_n_of 0 3 is_more) Bytes.be_u8_of))) true input.entry result }
{
    let length = pair(take_while_m_n(0usize, 3usize, more), be_u8());
    pair(be_u8(), recognize(length)).parse(input)
}

/// A question of DNS: the labels of a name, the type and the class.
pub fn question(alloc: Global, input: &[u8]) -> IResult<&[u8], ((Vec<&[u8]>, &[u8]), u16, u16)>
    ensures { Bytes.Parses (Bytes.tuple_of_three
        (Bytes.many_till_of (Bytes.length_data_of Bytes.be_u8_of) (Bytes.tag_of (codes "\0")))
        Bytes.be_u16_of Bytes.be_u16_of) true input.entry result }
{
    let name = many_till(alloc, length_data(be_u8()), tag("\0"));
    (name, be_u16(), be_u16()).parse(input)
}

/// A record of TLS: its type, its version and its fragment.
pub fn record(input: &[u8]) -> IResult<&[u8], (u8, u16, &[u8])>
    ensures { Bytes.Parses (Bytes.tuple_of_three Bytes.be_u8_of Bytes.be_u16_of
        (Bytes.length_data_of Bytes.be_u16_of)) true input.entry result }
{
    (be_u8(), be_u16(), length_data(be_u16())).parse(input)
}

/// A netstring, as `5:hello,`.
pub fn netstring(input: &[u8]) -> IResult<&[u8], &[u8]>
    ensures { Bytes.Parses (Bytes.terminated_of (Bytes.length_data_of (Bytes.terminated_of Bytes.u32_of (Bytes.char_of 58))) (Bytes.char_of 44))
        true input.entry result }
{
    terminated(length_data(terminated(u32(), char(':'))), char(',')).parse(input)
}

/// A record of a CSV file, with quoted fields and bare ones.
pub fn csv_record(alloc: Global, input: &str) -> IResult<&str, Vec<&str>>
    ensures { Parses (terminated_of (separated_list0_of (char_of 44)
        (alt_of (or_of (delimited_of (char_of 34) (is_not_of (codes "\"")) (char_of 34)) (is_not_of (codes ",\"\r\n"))))) line_ending_of)
        false input.entry result }
{
    let quoted = delimited(char('"'), is_not("\""), char('"'));
    let field = alt((quoted, is_not(",\"\r\n")));
    let record = terminated(separated_list0(alloc, char(','), field), line_ending());
    parse_in::<Complete, _, _>(record, input)
}

/// A section of an INI file: its name, and its settings.
pub fn section(alloc: Global, input: &str) -> IResult<&str, (&str, Vec<(&str, &str)>)>
    ensures { Parses (pair_of (delimited_of (char_of 91) (is_not_of (codes "]\r\n")) (pair_of (char_of 93) line_ending_of))
        (many0_of (separated_pair_of (is_not_of (codes "[=\r\n")) (char_of 61) (terminated_of not_line_ending_of line_ending_of)))) false input.entry result }
{
    let header = delimited(char('['), is_not("]\r\n"), pair(char(']'), line_ending()));
    let value = terminated(not_line_ending(), line_ending());
    let setting = separated_pair(is_not("[=\r\n"), char('='), value);
    pair(header, many0(alloc, setting)).parse_complete(input)
}

/// A line of a log, as `level=info msg=started`.
pub fn log_line(alloc: Global, input: &str) -> IResult<&str, Vec<(&str, &str)>>
    ensures { Parses (separated_list1_of (char_of 32) (separated_pair_of (is_not_of (codes "= \n")) (char_of 61) (is_not_of (codes " \n"))))
        false input.entry result }
{
    let entry = separated_pair(is_not("= \n"), char('='), is_not(" \n"));
    separated_list1(alloc, char(' '), entry).parse_complete(input)
}

/// An atom of an S-expression: a whole number, or a symbol.
pub fn atom(input: &str) -> IResult<&str, &str>
    ensures { Parses (alt_of (or_of (recognize_of (pair_of (opt_of (tag_of (codes "-"))) digit1_of)) (is_not_of (codes "() \n")))) false input.entry result }
{
    let number = recognize(pair(opt(tag("-")), digit1()));
    alt((number, is_not("() \n"))).parse_complete(input)
}

/// A quoted string, in which a backslash escapes a quote, a backslash or an `n`.
pub fn quoted(input: &str) -> IResult<&str, &str>
    ensures { Parses (delimited_of (char_of 34) (escaped_of (is_not_of (codes "\\\"")) 92 (one_of_of (codes "\\\"n"))) (char_of 34)) false input.entry result }
{
    let inside = escaped(is_not("\\\""), '\\', one_of("\\\"n"));
    delimited(char('"'), inside, char('"')).parse_complete(input)
}

/// A line of Git's protocol: its length in four hexadecimal digits, and what stands up to its end.
pub fn pkt_line(input: &[u8]) -> IResult<&[u8], (&[u8], &[u8])>
    ensures { Bytes.Parses (Bytes.pair_of (Bytes.take_of 4) (Bytes.terminated_of Bytes.not_line_ending_of Bytes.line_ending_of)) true input.entry result }
{
    pair(take(4usize), terminated(not_line_ending(), line_ending())).parse(input)
}

/// The first chunk of a PNG file: width, height, and five bytes that say how its pixels are stored.
pub fn image_header(input: &[u8]) -> IResult<&[u8], (u32, u32, &[u8], u32)>
    ensures { Bytes.Parses (Bytes.preceded_of (Bytes.pair_of Bytes.be_u32_of (Bytes.tag_of (codes "IHDR")))
        (Bytes.tuple_of_four Bytes.be_u32_of Bytes.be_u32_of (Bytes.take_of 5) Bytes.be_u32_of))
        true input.entry result }
{
    let fields = (be_u32(), be_u32(), take(5usize), be_u32());
    preceded(pair(be_u32(), tag("IHDR")), fields).parse(input)
}

/// The header of a WebSocket frame: whether it is the last, its reserved bits, its kind, whether it is masked, and its length.
pub fn frame_header(input: &[u8]) -> IResult<&[u8], (bool, u8, u8, bool, u8)>
    ensures { Words.Parses Words.bytes (Bits.bits_of (Words.tuple_of_five Bits.bool_of (Bits.take_of 8 3) (Bits.take_of 8 4) Bits.bool_of (Bits.take_of 8 7)))
        true input.entry result }
{
    let length = take_bits(7usize);
    let last = bool::<_, Error<(&[u8], usize)>>();
    bits((last, take_bits(3usize), take_bits(4usize), bool(), length)).parse(input)
}
