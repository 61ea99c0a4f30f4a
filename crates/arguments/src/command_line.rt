//! The arguments that the program is called with, and what they ask for.
ghost use Rattle.std.specs.Prelude.{◌≡◌, IfOk, IfErr, [], ◌∷◌, false, true, codes, is_some, map, pos, string_bytes};
ghost use Rattle.clap.specs.Words.{app_of, first_of, found_of, rows_of, rule_of, subcommand_rows_of};
ghost use Rattle.arguments.specs.Arguments.{Asks, GivesGeometry, HasDevice, IsReason, IsRequested, NamesCommand, answer_of, device_in, device_rule, number_in, numbers_in, rule_within, service_in, service_numbers, waffd, bare};
ghost use Rattle.arguments.specs.Tables.{command_app, with_commands, with_options};
ghost use Rattle.arguments.specs.declared.command_line.ArgumentRefusal.TheVariants.{OutOfMemory};

use affinity::Geometry;
use affinity::limits::{MOST_RECORDS, MOST_SLOTS, MOST_WORKERS};
use clap::builder::ValueParser;
use clap::error::ErrorKind;
use clap::{Arg, ArgMatches, Command};
use std::alloc::{AllocError, Global};

/// What `--version` prints behind the program's name: its version, and the kit and the logic for which it is written. It says nothing of a
/// proof, as `./try` runs it unproved. The letter behind the kit's number, its revision, is left out: revisions differ, and their logic is
/// the same.
const VERSION: &str = "0.1.0 (rattle-kit-13, logic dac8208d650f15bf)";

// What help prints of the commands.
const PLAIN: &str = "Answers the messages on standard input, one line each, from an empty state on";

const FORMAT: &str = "Makes an empty device in a file. What a file that is there holds is lost";

const SERVE: &str =
    "Answers the messages on standard input, one line each, with the device in a file";

const SHOW: &str = "Tells what the device in a file holds, and leaves it as it is";

/// How many workers `serve` has where the arguments don't say.
pub const DEFAULT_WORKERS: u16 = 2;

/// How many slots `serve` has where the arguments don't say.
pub const DEFAULT_SLOTS: u16 = 16;

/// After how many records `serve` makes a checkpoint where the arguments don't say: at 0, where the log is full.
pub const DEFAULT_EVERY: u16 = 0;

/// What help prints of the file of a device.
const DEVICE: &str = "The file of the device";

/// An option that takes a number: its name, what help prints of it, the least number that it takes and the greatest one. The numbers in the
/// texts of help, LEAST to MOST and the default, are compared with those of the code by `tests/run house`.
type NumberOption<'a> = (&'a str, &'a str, u16, u16);

/// The options of a geometry, in the order in which `Geometry::new` takes its numbers. Each takes any number of 16 bits: `Geometry::new`
/// refuses what is out of range.
const NUMBERS: [NumberOption<'static>; 8] = [
    ("aggregates", "Aggregates, 1 to 4 [default: 1]", 0, u16::MAX),
    (
        "volumes",
        "Volumes of each aggregate, 1 to 8 [default: 4]",
        0,
        u16::MAX,
    ),
    (
        "stripes",
        "Stripes of each volume, 1 to 8 [default: 4]",
        0,
        u16::MAX,
    ),
    (
        "width",
        "Blocks in a row in one stripe, 1 to 64 [default: 4]",
        0,
        u16::MAX,
    ),
    (
        "files",
        "Files of each volume, 1 to 64 [default: 16]",
        0,
        u16::MAX,
    ),
    (
        "blocks",
        "Blocks of each file, 1 to 256 [default: 64]",
        0,
        u16::MAX,
    ),
    (
        "quota",
        "Blocks that a stripe can hold, 1 to 64 [default: 64]",
        0,
        u16::MAX,
    ),
    (
        "half",
        "Records in each half of the log of a device, 4 to 1024 [default: 256]",
        0,
        u16::MAX,
    ),
];

/// The options of `serve`, in the order of the fields of `ServiceNumbers`.
const SERVICE: [NumberOption<'static>; 3] = [
    (
        "workers",
        "Threads that run messages, 0 to 64 [default: 2]",
        0,
        MOST_WORKERS,
    ),
    (
        "slots",
        "Lines that are read and whose reply is not sent, 1 to 1024 [default: 16]",
        1,
        MOST_SLOTS,
    ),
    (
        "every",
        "Changes between checkpoints, 0 to 1024; 0 makes them where the log is full [default: 0]",
        0,
        MOST_RECORDS,
    ),
];

/// A command: its name, what help prints of it, whether it is given a device, and its options.
type CommandRow<'a> = (&'a str, &'a str, bool, &'a [NumberOption<'a>]);

/// The commands of the program, in the order in which help prints them.
const COMMANDS: [CommandRow<'static>; 4] = [
    ("plain", PLAIN, false, &NUMBERS),
    ("format", FORMAT, true, &NUMBERS),
    ("show", SHOW, true, &[]),
    ("serve", SERVE, true, &SERVICE),
];

/// The numbers that the arguments give for a service.
#[derive(Clone, Copy)]
pub struct ServiceNumbers {
    /// Threads that run messages.
    pub workers: u16,
    /// Lines that may be read whose answer is not sent yet.
    pub slots: u16,
    /// Records after which a checkpoint is made; with 0 one is made where the log is full.
    pub every: u16,
}

/// What the arguments ask for.
#[derive(Drop)]
pub enum Request<'a> {
    /// Print this text of `clap`: help, or the version.
    Help(clap::Error),
    /// Serve standard input to standard output, without a device.
    Plain(Geometry),
    /// Make a device of this geometry in the file of this path.
    Format(&'a str, Geometry),
    /// Print what the device in the file of this path holds.
    Show(&'a str),
    /// Serve standard input to standard output with the device in the file of this path.
    Serve(&'a str, ServiceNumbers),
}

/// Why the arguments give no request.
#[derive(Drop)]
pub enum ArgumentRefusal {
    /// `clap` reports what is wrong with them.
    Words(clap::Error),
    /// There was no memory to read them.
    OutOfMemory,
    /// One of the numbers of the geometry is out of its range.
    GeometryOutOfRange,
}

impl From<AllocError> for ArgumentRefusal {
    ghost from_gives = { λ _ refusal. refusal ≡ OutOfMemory };

    fn from(_error: AllocError) -> ArgumentRefusal {
        ArgumentRefusal::OutOfMemory
    }
}

/// What an error of `clap` means: help or the version, a mistake in the arguments, or want of memory.
fn outcome_of<'a>(error: clap::Error) -> Result<Request<'a>, ArgumentRefusal>
    ensures { result ≡ answer_of error }
{
    if error.kind() == ErrorKind::OutOfMemory {
        return Err(ArgumentRefusal::OutOfMemory);
    }
    if error.use_stderr() {
        return Err(ArgumentRefusal::Words(error));
    }
    Ok(Request::Help(error))
}

/// An option that takes a number from `least` to `most`. In clauses `rule_of` is the description of an argument by which `clap` reads words
/// (without help's texts), and `pos n` is n as an integer. `local`: subcommands don't inherit the option.
fn number<'a>(alloc: Global, name: &'a str, help: &'a str, least: u16, most: u16) -> Arg<'a>
    ensures rule { rule_of result ≡ rule_within name.entry.now (pos least) (pos most) }
    ensures local { result.global ≡ false }
{
    Arg::new(alloc, name)
        .long(name)
        .value_name("N")
        .value_parser(ValueParser::signed(i64::from(least), i64::from(most)))
        .help(help)
}

/// The argument that gives the file of a device. It has to be given.
fn device<'a>(alloc: Global) -> Arg<'a>
    ensures rule { rule_of result ≡ device_rule }
    ensures local { result.global ≡ false }
{
    Arg::new(alloc, "device")
        .value_name("DEVICE")
        .required(true)
        .help(DEVICE)
}

/// The command with each of these options added. In clauses `app_of` is the same description of a command and its subcommands.
fn with_options<'a>(
    alloc: Global,
    command: Command<'a>,
    options: &[NumberOption<'a>],
) -> Result<Command<'a>, AllocError>
    ensures { IfOk result (λ c. app_of c ≡ with_options (app_of command.entry) options.now) }
{
    let mut command = command;
    'options: for &(name, help, least, most) in options {
        command = command.arg(number(alloc, name, help, least, most))?;
    }
    Ok(command)
}

/// The command of a row.
fn command_in_row<'a>(
    alloc: Global,
    name: &'a str,
    about: &'a str,
    has_device: bool,
    options: &[NumberOption<'a>],
) -> Result<Command<'a>, AllocError>
    ensures { IfOk result (λ c. app_of c ≡ command_app name.entry.now has_device options.now) }
{
    let command = Command::new(alloc, name).about(about);
    if has_device {
        let on_device = command.arg(device(alloc))?;
        return with_options(alloc, on_device, options);
    }
    with_options(alloc, command, options)
}

/// The program without its commands.
fn bare<'a>(alloc: Global) -> Command<'a>
    ensures { app_of result ≡ bare }
{
    Command::new(alloc, "waffd")
        .about(
            "A server for messages about files of 512-byte blocks: docs/protocol.md has the messages",
        )
        .version(VERSION)
        .subcommand_required(true)
        .arg_required_else_help(true)
}

/// The program with the command of one more row.
fn with_command<'a>(
    alloc: Global,
    program: Command<'a>,
    row: CommandRow<'a>,
) -> Result<Command<'a>, AllocError>
    ensures { IfOk result (λ more. app_of more ≡ with_commands (app_of program.entry) (row.entry ∷ [])) }
{
    let (name, about, has_device, options) = row;
    program.subcommand(command_in_row(alloc, name, about, has_device, options)?)
}

/// The program with the commands of these rows.
fn with_commands<'a>(alloc: Global, rows: &[CommandRow<'a>]) -> Result<Command<'a>, AllocError>
    ensures { IfOk result (λ program. app_of program ≡ with_commands bare rows.now) }
{
    let mut program = bare(alloc);
    'rows: for &row in rows {
        program = with_command(alloc, program, row)?;
    }
    Ok(program)
}

/// The commands of the program, each with its options.
fn commands<'a>(alloc: Global) -> Result<Command<'a>, AllocError>
    ensures { IfOk result (λ command. app_of command ≡ waffd) }
{
    with_commands(alloc, &COMMANDS)
}

/// The number that was given to an option, or else `default_value`. In clauses `rows_of` gives the options that `clap` found, each
/// with its values.
fn number_given(options: &ArgMatches<'_>, name: &str, default_value: u16) -> u16
    ensures { result ≡ number_in (rows_of (found_of options.now)) name.now default_value }
{
    options.get_one::<u16>(name).unwrap_or(default_value)
}

/// The eight numbers of the geometry that the options ask for.
fn numbers_given(options: &ArgMatches<'_>) -> [u16; 8]
    ensures { result ≡ numbers_in (rows_of (found_of options.now)) }
{
    let default = Geometry::default();
    [
        number_given(options, "aggregates", default.aggregates),
        number_given(options, "volumes", default.volumes),
        number_given(options, "stripes", default.stripes),
        number_given(options, "width", default.width),
        number_given(options, "files", default.files),
        number_given(options, "blocks", default.blocks),
        number_given(options, "quota", default.quota),
        number_given(options, "half", default.half),
    ]
}

/// The geometry that the options ask for.
fn geometry_given(options: &ArgMatches<'_>) -> Result<Geometry, ArgumentRefusal>
    ensures { GivesGeometry (numbers_in (rows_of (found_of options.now))) result }
{
    Geometry::new(numbers_given(options)).map_err(|_| ArgumentRefusal::GeometryOutOfRange)
}

/// The options of `serve` that the command line gives.
fn service_given(options: &ArgMatches<'_>) -> ServiceNumbers
    ensures { service_numbers result ≡ service_in (rows_of (found_of options.now)) }
{
    ServiceNumbers {
        workers: number_given(options, "workers", DEFAULT_WORKERS),
        slots: number_given(options, "slots", DEFAULT_SLOTS),
        every: number_given(options, "every", DEFAULT_EVERY),
    }
}

/// The file of the device that was given.
fn device_given<'a>(options: &ArgMatches<'a>) -> &'a str
    requires { is_some (first_of (codes "device") (rows_of (found_of options.now))) ≡ true }
    ensures { result.now ≡ device_in (rows_of (found_of options.now)) }
{
    let Some(path) = options.get_str("device") else {
        unreachable!()
    };
    path
}

/// What the arguments ask for, where `clap` found nothing wrong with them.
fn requested<'a>(matches: &ArgMatches<'a>) -> Result<Request<'a>, ArgumentRefusal>
    requires named { NamesCommand (subcommand_rows_of matches.now) }
    requires device { HasDevice (subcommand_rows_of matches.now) }
    ensures { IsRequested (subcommand_rows_of matches.now) result }
{
    match matches.subcommand() {
        Some(("format", options)) => Ok(Request::Format(
            device_given(options),
            geometry_given(options)?,
        )),
        Some(("show", options)) => Ok(Request::Show(device_given(options))),
        Some(("serve", options)) => Ok(Request::Serve(
            device_given(options),
            service_given(options),
        )),
        Some(("plain", options)) => Ok(Request::Plain(geometry_given(options)?)),
        // Arguments that name no command, or another one, were refused before.
        _ => unreachable!(),
    }
}

/// What the arguments ask for. `words` begins with the program's own name.
pub fn read_arguments<'a>(
    alloc: Global,
    words: &'a [String],
) -> Result<Request<'a>, ArgumentRefusal>
    ensures ok { IfOk result (Asks (map string_bytes words.now)) }
    ensures err { IfErr result (IsReason (map string_bytes words.now)) }
{
    match commands(alloc)?.try_get_matches_from(words) {
        Ok(matches) => requested(&matches),
        Err(error) => outcome_of(error),
    }
}
