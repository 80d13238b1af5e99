//! The causes of a line's faults, in words.
use crate::excerpt::Excerpt;
use std::alloc::Global;
use std::fmt;

/// What a script has yet to say.
#[derive(Debug, Clone, Copy, PartialEq, Eq, Drop)]
pub enum Awaited {
    /// The instant of tick 0.
    Start,
    /// A part of the schema.
    Schema,
    /// The end of the lanes.
    Join,
}

/// In which way a line is wrong.
#[derive(Clone, Copy)]
pub enum Wrong {
    /// The line has more bytes than a line may have.
    TooLong {
        bytes: usize,
    },
    /// It is UTF-8 up to this many bytes alone.
    NotUtf8 {
        bytes: usize,
    },
    /// A script has no more of these.
    TooMany {
        most: u64,
        what: &'static str,
    },
    /// It is of no form of a line.
    NoForm,
    /// Its only member has no name of a line.
    NoLine,
    /// What is done in a lane is no command.
    NoCommand,
    /// What has members elsewhere is no object.
    NoObject,
    /// The member of this name is missing.
    Missing {
        name: &'static str,
    },
    /// A member may not be there.
    Unknown,
    /// The member of this name is not what it must be, which these words say.
    Member {
        name: &'static str,
        words: &'static str,
    },
    /// A number is out of its range, whose ends are in it.
    OutOfRange {
        name: &'static str,
        low: u64,
        high: u64,
    },
    /// The text of the member of this name is no instant.
    NoInstant {
        name: &'static str,
    },
    /// No receiver has this name.
    NoReceiver,
    /// A receiver of this name was there.
    ReceiverTwice,
    /// The receiver of this name takes its packets by itself.
    TakesByItself,
    /// It has two filters.
    TwoFilters,
    /// It has two triggers.
    TwoTriggers,
    /// It has no trigger.
    NoTrigger,
    /// The line stands before what has to stand before it.
    Before(Awaited),
    /// The line may not stand here, by this rule.
    Misplaced(&'static str),
    /// The script ends before this.
    Ends(Awaited),
    /// The reader of a part of the line has told what is wrong.
    Told,
}

/// What is wrong with a line, for people. Its display says it in words, with the member, the number, the node
/// or the name that it is about.
#[derive(Drop)]
pub struct Cause {
    /// in which way the line is wrong
    pub wrong: Wrong,
    /// the name or the value that it is about, or what the reader of a part has told
    about: Excerpt,
}

impl Cause {
    /// It is wrong in a way that is about no text of the line.
    pub fn of(wrong: Wrong) -> Cause {
        Cause {
            wrong,
            about: Excerpt::none(),
        }
    }

    /// It is wrong in a way that is about this text.
    pub fn about(wrong: Wrong, about: Excerpt) -> Cause {
        Cause { wrong, about }
    }

    /// What the reader of a part has told.
    pub fn told(text: Excerpt) -> Cause {
        Cause::about(Wrong::Told, text)
    }

    /// The member of this name is missing.
    pub fn missing(name: &'static str) -> Cause {
        Cause::of(Wrong::Missing { name })
    }

    /// A member of this name may not be there.
    pub fn unknown(alloc: Global, name: &str) -> Cause {
        Cause::about(Wrong::Unknown, Excerpt::of(alloc, name))
    }

    /// The member of this name is not what it must be, which these words say.
    pub fn member(name: &'static str, words: &'static str) -> Cause {
        Cause::of(Wrong::Member { name, words })
    }
}

impl fmt::Display for Awaited {
    fn fmt<W: fmt::Write>(&self, f: &mut fmt::Formatter<W>) -> fmt::Result {
        let name = match self {
            Awaited::Start => "`start`",
            Awaited::Schema => "`schema`",
            Awaited::Join => "`join`",
        };
        write!(f, "{name}")
    }
}

impl fmt::Display for Cause {
    fn fmt<W: fmt::Write>(&self, f: &mut fmt::Formatter<W>) -> fmt::Result {
        let about = &self.about;
        match self.wrong {
            Wrong::NoLine => write!(f, "no line is called `{about}`"),
            Wrong::NoCommand => write!(f, "no command is called `{about}`"),
            Wrong::Unknown => write!(f, "the member `{about}` is unknown"),
            Wrong::NoInstant { name } => write!(
                f,
                "`{name}` `{about}`: no instant of the years 1970 to 2199, as `2026-01-01T00:00:00Z`"
            ),
            Wrong::NoReceiver => write!(f, "no receiver is called `{about}`"),
            Wrong::ReceiverTwice => write!(f, "the receiver `{about}` was there before"),
            Wrong::TakesByItself => {
                write!(f, "the receiver `{about}` takes its packets by itself")
            }
            Wrong::Told => write!(f, "{about}"),
            other => write!(f, "{other}"),
        }
    }
}

/// The ways that are about no text of the line.
impl fmt::Display for Wrong {
    fn fmt<W: fmt::Write>(&self, f: &mut fmt::Formatter<W>) -> fmt::Result {
        match *self {
            Wrong::TooLong { bytes } => {
                let bytes = Grouped(bytes as u64);
                write!(f, "it has {bytes} bytes, and may have 65,536")
            }
            Wrong::NotUtf8 { bytes } => write!(f, "it is not UTF-8 after {bytes} bytes"),
            Wrong::TooMany { most, what } => {
                let most = Grouped(most);
                write!(f, "a script has at most {most} {what}")
            }
            Wrong::Missing { name } => write!(f, "the member `{name}` is missing"),
            Wrong::Member { name, words } => write!(f, "`{name}` {words}"),
            Wrong::OutOfRange { name, low, high } => {
                let high = Grouped(high);
                write!(f, "`{name}` is {low} to {high}")
            }
            Wrong::Before(awaited) => write!(f, "no {awaited} stands before it"),
            Wrong::Misplaced(rule) => write!(f, "{rule}"),
            Wrong::Ends(Awaited::Join) => write!(
                f,
                "the script ends in its lanes, without `{{\"join\":true}}`"
            ),
            Wrong::Ends(awaited) => write!(f, "the script ends without a {awaited}"),
            plain => write!(f, "{}", words_of(plain)),
        }
    }
}

/// The words for a way in which a line is wrong that has none of its own.
fn words_of(wrong: Wrong) -> &'static str {
    match wrong {
        Wrong::NoForm => {
            "a line is an object of one member, or of the two members `lane` and `do`"
        }
        Wrong::NoObject => "it is no object",
        Wrong::TwoFilters => "it has two filters",
        Wrong::TwoTriggers => "it has both `periodic` and `on-change`",
        Wrong::NoTrigger => "it has neither `periodic` nor `on-change`",
        _ => "it is wrong",
    }
}

/// A number whose digits are in groups of three.
#[derive(Clone, Copy)]
struct Grouped(u64);

/// The worth of the last digit of each group.
const GROUPS: [u64; 7] = [
    1_000_000_000_000_000_000,
    1_000_000_000_000_000,
    1_000_000_000_000,
    1_000_000_000,
    1_000_000,
    1_000,
    1,
];

impl fmt::Display for Grouped {
    fn fmt<W: fmt::Write>(&self, f: &mut fmt::Formatter<W>) -> fmt::Result {
        let mut begun = false;
        for worth in GROUPS {
            let group = self.0.checked_div(worth).unwrap_or(0) % 1_000;
            if begun {
                write!(f, ",{group:03}")?;
            } else if group > 0 || worth == 1 {
                write!(f, "{group}")?;
                begun = true;
            }
        }
        Ok(())
    }
}
