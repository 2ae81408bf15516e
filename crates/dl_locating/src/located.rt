//! What came of addresses that were looked up.

ghost use Rattle.std.specs.Prelude.{◌≡◌};
ghost use Rattle.dl_locating.specs.Located.{is_not_found};

use dl_addr::WhichFound;
use dl_asked::OtherLine;
use dl_program::Stop;
use dl_sections::{RunFault, Survey};

/// What came of addresses that were looked up.
#[derive(Debug, Drop)]
pub struct Located {
    /// Whether each address has an answer.
    pub found: WhichFound,
    /// The first line of the input that is no address.
    pub no_address: Option<OtherLine>,
}

/// Whether some address has no answer, and nothing else is wrong.
fn is_not_found(stop: &Stop<'_>) -> bool
    ensures { result ≡ is_not_found stop.now }
{
    matches!(stop, Stop::Run(RunFault::NotFound))
}

impl Located {
    ghost use Rattle.std.specs.Prelude.{◌≡◌};
    ghost use Rattle.dl_locating.specs.Located.{located, unless_no_address};

    /// By the answer of the command, and the first line that is no address. Damaged units are told before that line.
    pub(crate) fn by_answer<'a>(
        answer: Result<Survey, Stop<'a>>,
        no_address: Option<OtherLine>,
    ) -> Result<Located, Stop<'a>>
        ensures { result ≡ located answer.entry no_address }
    {
        match answer {
            Ok(survey) => match survey.damaged {
                Some(units) => Err(Stop::Damaged { units }),
                None => Ok(Located {
                    found: WhichFound::All,
                    no_address,
                }),
            },
            Err(stop) => {
                if is_not_found(&stop) {
                    Ok(Located {
                        found: WhichFound::NotAll,
                        no_address,
                    })
                } else {
                    Err(stop)
                }
            }
        }
    }

    /// What is told in the end: the line that is no address, where there is one.
    pub fn told<'a>(self) -> Result<WhichFound, Stop<'a>>
        ensures { result ≡ unless_no_address self.no_address self.found }
    {
        match self.no_address {
            Some(line) => Err(Stop::NoAddress { line }),
            None => Ok(self.found),
        }
    }
}
