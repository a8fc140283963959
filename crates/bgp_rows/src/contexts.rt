//! The contexts of a row: what its words name is set, or with `no-` before it isn't; what they don't name is tried both ways.

use crate::trouble::Trouble;
use bgp_open::Context;

/// The contexts of a row, and whether there are routes in the NLRI field.
#[derive(Clone, Copy)]
pub struct Contexts {
    internal: Option<bool>,
    as4: Option<bool>,
    ip4: Option<bool>,
    ip6: Option<bool>,
    nlri: Option<bool>,
}

/// The number of cases of the five flags.
pub const CASES: u8 = 32;

/// One of the cases.
#[derive(Clone, Copy)]
pub struct Case {
    pub context: Context,
    pub has_nlri: bool,
}

impl Case {
    /// A case by the bits of a number.
    pub fn new(number: u8) -> Case {
        Case {
            context: Context {
                internal: number & 1 != 0,
                as4: number & 2 != 0,
                ip4: number & 4 != 0,
                ip6: number & 8 != 0,
                hold: 90,
            },
            has_nlri: number & 16 != 0,
        }
    }
}

/// Whether a flag is as wanted.
fn is_as_told(told: Option<bool>, flag: bool) -> bool {
    match told {
        Some(told) => told == flag,
        None => true,
    }
}

impl Contexts {
    /// The contexts that a row's words give.
    pub fn read(words: &str) -> Result<Contexts, Trouble> {
        let mut told = Contexts {
            internal: None,
            as4: None,
            ip4: None,
            ip6: None,
            nlri: None,
        };
        for word in words.split_whitespace() {
            told.add(word)?;
        }
        Ok(told)
    }

    /// Adds one word.
    fn add(&mut self, word: &str) -> Result<(), Trouble> {
        let (flag, name) = match word.strip_prefix("no-") {
            Some(name) => (false, name),
            None => (true, word),
        };
        match name {
            "internal" => self.internal = Some(flag),
            "as4" => self.as4 = Some(flag),
            "ip4" => self.ip4 = Some(flag),
            "ip6" => self.ip6 = Some(flag),
            "nlri" => self.nlri = Some(flag),
            _ => return Err(Trouble::Row("a context of internal, as4, ip4, ip6 and nlri")),
        }
        Ok(())
    }

    /// Whether a row includes this context.
    pub fn allows(&self, ctx: &Context) -> bool {
        is_as_told(self.internal, ctx.internal)
            && is_as_told(self.as4, ctx.as4)
            && is_as_told(self.ip4, ctx.ip4)
            && is_as_told(self.ip6, ctx.ip6)
    }

    /// Whether a row includes this case.
    pub fn allows_case(&self, case: &Case) -> bool {
        self.allows(&case.context) && is_as_told(self.nlri, case.has_nlri)
    }
}
