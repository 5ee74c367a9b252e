//! The kinds of arguments that subcommands have.

ghost use Rattle.std.specs.Prelude.{◌≡◌, IsSome, false};
ghost use Rattle.clap.specs.Walk.{rule_of};
ghost use Rattle.command_words.specs.CommandLine as line;

use clap::{Arg, ArgAction, value_parser};
use std::alloc::Global;

/// A word that must be given.
pub fn word<'a>(alloc: Global, name: &'a str, help: &'a str) -> Arg<'a>
    ensures rule { rule_of result ≡ line.word name.now }
    ensures local { result.global ≡ false }
{
    Arg::new(alloc, name).required(true).help(help)
}

/// A word that may be given.
pub fn may_be<'a>(alloc: Global, name: &'a str, help: &'a str) -> Arg<'a>
    ensures rule { rule_of result ≡ line.new_rule name.now }
    ensures local { result.global ≡ false }
{
    Arg::new(alloc, name).help(help)
}

/// A screen's number, which must be given.
pub fn screen<'a>(alloc: Global, name: &'a str, help: &'a str) -> Arg<'a>
    ensures rule { rule_of result ≡ line.screen name.now }
    ensures local { result.global ≡ false }
{
    word(alloc, name, help).value_parser(value_parser!(u16))
}

/// How many blocks a new file has.
pub fn count<'a>(alloc: Global) -> Arg<'a>
    ensures rule { rule_of result ≡ line.count }
    ensures local { result.global ≡ false }
{
    word(alloc, "N", "How many blocks, 0 to 65536").value_parser(value_parser!(u32))
}

/// `--NAME VALUE`, which may be given.
pub fn option<'a>(alloc: Global, name: &'a str, value: &'a str, help: &'a str) -> Arg<'a>
    ensures rule { rule_of result ≡ line.option name.now }
    ensures local { result.global ≡ false }
{
    Arg::new(alloc, name)
        .long(name)
        .value_name(value)
        .help(help)
}

/// `--NAME`, which may be given.
pub fn flag<'a>(alloc: Global, name: &'a str, help: &'a str) -> Arg<'a>
    ensures rule { rule_of result ≡ line.flag name.now }
    ensures local { result.global ≡ false }
{
    Arg::new(alloc, name)
        .long(name)
        .action(ArgAction::SetTrue)
        .help(help)
}

/// How many block buffers an image has.
pub fn buffers<'a>(alloc: Global, help: &'a str) -> Arg<'a>
    ensures rule { rule_of result ≡ line.buffers }
    ensures local { result.global ≡ false }
{
    option(alloc, "buffers", "N", help).value_parser(value_parser!(u16).range(2..=16))
}

/// How many block buffers an image has, 4 if that is not given.
pub fn four_buffers<'a>(alloc: Global) -> Arg<'a>
    ensures rule { rule_of result ≡ line.four_buffers }
    ensures local { result.global ≡ false }
{
    buffers(alloc, "Block buffers, 2 to 16").default_value("4")
}

/// How many ticks are allowed.
pub fn limit<'a>(alloc: Global) -> Arg<'a>
    ensures rule { rule_of result ≡ line.limit }
    ensures local { result.global ≡ false }
{
    option(alloc, "limit", "N", "Stop after N ticks")
        .value_parser(value_parser!(u64))
        .default_value("1000000000000")
}

/// How many ticks a lesson may take.
pub fn lesson_limit<'a>(alloc: Global) -> Arg<'a>
    ensures rule { rule_of result ≡ line.lesson_limit }
    ensures local { result.global ≡ false }
{
    option(alloc, "limit", "N", "Stop a lesson after N ticks")
        .value_parser(value_parser!(u64))
        .default_value("5000000")
}

/// Whether the place of a refusal is shown.
pub fn show_place<'a>(alloc: Global) -> Arg<'a>
    ensures rule { rule_of result ≡ line.show_place }
    ensures local { result.global ≡ false }
{
    flag(
        alloc,
        "where",
        "Show the place where a source is refused, as at a terminal",
    )
}

/// Whether all places of a word are listed.
pub fn all_places<'a>(alloc: Global) -> Arg<'a>
    ensures rule { rule_of result ≡ line.all_places }
    ensures local { result.global ≡ false }
{
    let help = "List every place of a word, and not only the first eight";
    flag(alloc, "all", help)
}

/// The name of a container's format.
pub fn format<'a>(alloc: Global) -> Arg<'a>
    ensures rule { rule_of result ≡ line.format }
    ensures local { result.global ≡ false }
{
    option(
        alloc,
        "format",
        "NAME",
        "How screens are arranged in the container",
    )
    .default_value("blocks")
}

/// `--NAME N`, a number of 32 bits, which may be given.
pub fn number<'a>(alloc: Global, name: &'a str, help: &'a str) -> Arg<'a>
    ensures rule { rule_of result ≡ line.number name.now }
    ensures local { result.global ≡ false }
{
    option(alloc, name, "N", help).value_parser(value_parser!(u32))
}

/// The bytes before a container's first sector.
pub fn offset<'a>(alloc: Global) -> Arg<'a>
    ensures rule { rule_of result ≡ line.offset }
    ensures local { result.global ≡ false }
{
    let help = "Bytes before the first sector (default: the format's)";
    number(alloc, "offset", help)
}

/// Whether what is read is made text.
pub fn clean<'a>(alloc: Global) -> Arg<'a>
    ensures rule { rule_of result ≡ line.clean }
    ensures local { result.global ≡ false }
{
    let help = "Clear high bits, and replace tabs, NULs and other bytes that aren't text by blanks";
    flag(alloc, "clean", help)
}

/// The bytes of a container's sector.
pub fn sector<'a>(alloc: Global) -> Arg<'a>
    ensures rule { rule_of result ≡ line.sector }
    ensures local { result.global ≡ false }
{
    let help = "Bytes in a sector (default: the format's)";
    option(alloc, "sector", "N", help).value_parser(value_parser!(u16))
}
