//! Grammars of standards, each a contract and a body: media types, SIP addresses, cookies, messages of BGP, headers of tar.
ghost use Rattle.std.specs.Prelude.{◌≡◌, codes, false, true};
ghost use Rattle.nom.specs.Bytes as Bytes;
ghost use Rattle.nom.specs.Texts.{Parses, alphanumerics, alt_of, and_of, char_of, delimited_of, digits_u32_of, digits_u64_of, except_of};
ghost use Rattle.nom.specs.Texts.{is_a_set_of, is_not_of, many0_of, opt_of, or_of, pair_of, preceded_of, separated_list1_of, separated_pair_of};
ghost use Rattle.nom.specs.Texts.{set_of, space0_of, span_of, tag_of, take_of, terminated_of, tuple_of_five, tuple_of_four, tuple_of_three, u16_of};
ghost use Rattle.example_grammars.specs.Codes.{is_length_of, is_ones, is_type_of};

use nom::branch::alt;
use nom::bytes::{is_a, is_not, tag, take, take_while_m_n};
use nom::character::{AsciiSet, char, digits, space0, u16};
use nom::combinator::{opt, verify};
use nom::multi::{many0, separated_list1};
use nom::number::{be_u8, be_u16};
use nom::sequence::{delimited, pair, preceded, separated_pair, terminated};
use nom::{Complete, IResult, Streaming, parse_in};
use std::alloc::Global;

/// A media type of RFC 9110 with its parameters, as `text/html; charset=utf-8`.
pub fn media_type<'a>(
    alloc: Global,
    input: &'a str,
) -> IResult<&'a str, ((&'a str, &'a str), Vec<(&'a str, &'a str)>)>
    ensures { Parses (pair_of
        (separated_pair_of (is_a_set_of (and_of (set_of (codes "!#$%&'*+-.^_`|~")) alphanumerics)) (char_of 47)
        (is_a_set_of (and_of (set_of (codes "!#$%&'*+-.^_`|~")) alphanumerics)))
        (many0_of (preceded_of (delimited_of space0_of (char_of 59) space0_of)
        (separated_pair_of (is_a_set_of (and_of (set_of (codes "!#$%&'*+-.^_`|~")) alphanumerics)) (char_of 61)
        (alt_of (or_of (delimited_of (char_of 34) (is_not_of (codes "\"")) (char_of 34))
        (is_a_set_of (and_of (set_of (codes "!#$%&'*+-.^_`|~")) alphanumerics))))))))
        false input.entry result }
{
    let token = || is_a(AsciiSet::of("!#$%&'*+-.^_`|~").and(AsciiSet::alphanumeric()));
    let quoted = delimited(char('"'), is_not("\""), char('"'));
    let semicolon = delimited(space0(), char(';'), space0());
    let parameter = separated_pair(token(), char('='), alt((quoted, token())));
    let parameters = many0(alloc, preceded(semicolon, parameter));
    let media = pair(separated_pair(token(), char('/'), token()), parameters);
    parse_in::<Complete, _, _>(media, input)
}

/// The pairs of a `Cookie` field of RFC 6265.
pub fn cookies<'a>(alloc: Global, input: &'a str) -> IResult<&'a str, Vec<(&'a str, &'a str)>>
    ensures { Parses (separated_list1_of (tag_of (codes "; "))
        (separated_pair_of (is_a_set_of (and_of (set_of (codes "!#$%&'*+-.^_`|~")) alphanumerics)) (char_of 61)
        (is_a_set_of (except_of (span_of 33 126) (set_of (codes "\",;\\")))))) false input.entry result }
{
    let name = is_a(AsciiSet::of("!#$%&'*+-.^_`|~").and(AsciiSet::alphanumeric()));
    let value = is_a(AsciiSet::span('!', '~').except(AsciiSet::of("\",;\\")));
    let cookies = separated_list1(alloc, tag("; "), separated_pair(name, char('='), value));
    parse_in::<Complete, _, _>(cookies, input)
}

/// A SIP address of RFC 3261: scheme, user with a password, host with a port, parameters and headers.
pub fn sip_uri<'a>(
    alloc: Global,
    input: &'a str,
) -> IResult<
    &'a str,
    (
        &'a str,
        Option<(&'a str, Option<&'a str>)>,
        (&'a str, Option<u16>),
        Vec<(&'a str, Option<&'a str>)>,
        Option<Vec<(&'a str, &'a str)>>,
    ),
>
    ensures { Parses (tuple_of_five (terminated_of (alt_of (or_of (tag_of (codes "sips")) (tag_of (codes "sip")))) (char_of 58))
        (opt_of (terminated_of (pair_of (is_not_of (codes ":@;?>")) (opt_of (preceded_of (char_of 58) (is_not_of (codes "@;?>"))))) (char_of 64)))
        (pair_of (is_not_of (codes ":;?>")) (opt_of (preceded_of (char_of 58) u16_of)))
        (many0_of (preceded_of (char_of 59) (pair_of (is_not_of (codes "=;?>")) (opt_of (preceded_of (char_of 61) (is_not_of (codes ";?>")))))))
        (opt_of (preceded_of (char_of 63) (separated_list1_of (char_of 38)
        (separated_pair_of (is_not_of (codes "=&>")) (char_of 61) (is_not_of (codes "&>")))))))
        false input.entry result }
{
    let scheme = terminated(alt((tag("sips"), tag("sip"))), char(':'));
    let password = opt(preceded(char(':'), is_not("@;?>")));
    let user = opt(terminated(pair(is_not(":@;?>"), password), char('@')));
    let host = pair(is_not(":;?>"), opt(preceded(char(':'), u16())));
    let value = opt(preceded(char('='), is_not(";?>")));
    let parameters = many0(alloc, preceded(char(';'), pair(is_not("=;?>"), value)));
    let header = separated_pair(is_not("=&>"), char('='), is_not("&>"));
    let headers = opt(preceded(char('?'), separated_list1(alloc, char('&'), header)));
    parse_in::<Complete, _, _>((scheme, user, host, parameters, headers), input)
}

/// The first half of a header of tar: name, mode, owner, group, size, time and sum of a file, in octal digits.
pub fn tar_file(input: &str) -> IResult<&str, (&str, (u32, u32, u32), (u64, u64), u32)>
    ensures { Parses (tuple_of_four (take_of 100)
        (tuple_of_three (terminated_of (digits_u32_of 8 7) (take_of 1)) (terminated_of (digits_u32_of 8 7) (take_of 1))
        (terminated_of (digits_u32_of 8 7) (take_of 1)))
        (pair_of (terminated_of (digits_u64_of 8 11) (take_of 1)) (terminated_of (digits_u64_of 8 11) (take_of 1)))
        (terminated_of (digits_u32_of 8 6) (take_of 2))) false input.entry result }
{
    let mode = terminated(digits::<u32, _, _>(8, 7), take(1usize));
    let owner = terminated(digits::<u32, _, _>(8, 7), take(1usize));
    let group = terminated(digits::<u32, _, _>(8, 7), take(1usize));
    let size = terminated(digits::<u64, _, _>(8, 11), take(1usize));
    let time = terminated(digits::<u64, _, _>(8, 11), take(1usize));
    let sum = terminated(digits::<u32, _, _>(8, 6), take(2usize));
    let header = (take(100usize), (mode, owner, group), pair(size, time), sum);
    parse_in::<Complete, _, _>(header, input)
}

/// The second half: kind, name of a link, mark and version of the format, names of owner and group, device and prefix.
pub fn tar_owner(
    input: &str,
) -> IResult<&str, ((&str, &str), (&str, &str), (&str, &str), (u32, u32), &str)>
    ensures { Parses (tuple_of_five (pair_of (take_of 1) (take_of 100)) (pair_of (terminated_of (tag_of (codes "ustar")) (take_of 1)) (tag_of (codes "00")))
        (pair_of (take_of 32) (take_of 32))
        (pair_of (terminated_of (digits_u32_of 8 7) (take_of 1)) (terminated_of (digits_u32_of 8 7) (take_of 1)))
        (terminated_of (take_of 155) (take_of 12))) false input.entry result }
{
    let link = pair(take(1usize), take(100usize));
    let mark = pair(terminated(tag("ustar"), take(1usize)), tag("00"));
    let names = pair(take(32usize), take(32usize));
    let major = terminated(digits(8, 7), take(1usize));
    let minor = terminated(digits(8, 7), take(1usize));
    let prefix = terminated(take(155usize), take(12usize));
    let header = (link, mark, names, pair(major, minor), prefix);
    parse_in::<Complete, _, _>(header, input)
}

/// Whether all bits of a byte are set.
fn ones(byte: u8) -> bool
    ensures { result ≡ is_ones byte }
{
    byte == 255
}

/// Whether a message may be so long.
fn is_length(length: &u16) -> bool
    ensures { result ≡ is_length_of length.now }
{
    *length >= 19 && *length <= 4096
}

/// Whether a message has such a type.
fn is_type(kind: &u8) -> bool
    ensures { result ≡ is_type_of kind.now }
{
    *kind >= 1 && *kind <= 5
}

/// The header of a message of BGP-4 (RFC 4271): sixteen bytes of ones, the length of the message, and its type.
pub fn bgp_header(input: &[u8]) -> IResult<&[u8], (u16, u8)>
    ensures { Bytes.Parses (Bytes.preceded_of (Bytes.take_while_m_n_of 16 16 is_ones)
        (Bytes.pair_of (Bytes.verify_of is_length_of Bytes.be_u16_of) (Bytes.verify_of is_type_of Bytes.be_u8_of))) true input.entry result }
{
    let length = verify(be_u16(), is_length);
    let kind = verify(be_u8(), is_type);
    let marker = take_while_m_n(16usize, 16usize, ones);
    parse_in::<Streaming, _, _>(preceded(marker, pair(length, kind)), input)
}
