// What is measured, as a line says it.
ghost use Rattle.std.specs.Prelude.{◌≡◌, ◌↔◌, IsOk, IfOk};
ghost use Rattle.bench.specs.Work.{IsNumber, value_of};

use std::num::ParseIntError;
use std::str::FromStr;

/// How many ticks of which bus.
#[derive(Clone, Copy, PartialEq, Eq, Debug)]
pub struct Work {
    pub ticks: u64,
    pub masters: u8,
    pub ports: u8,
}

impl Work {
    // The three numbers in base ten.
    fn of_words(ticks: &str, masters: &str, ports: &str) -> Result<Work, ParseIntError>
        ensures ok { IsOk result ↔
            (IsNumber 64 ticks.now × IsNumber 8 masters.now × IsNumber 8 ports.now) }
        ensures numbers { IfOk result (λ work.
            (work.ticks ≡ value_of ticks.now) ×
            (work.masters ≡ value_of masters.now) ×
            (work.ports ≡ value_of ports.now)) }
    {
        Ok(Work {
            ticks: ticks.parse()?,
            masters: masters.parse()?,
            ports: ports.parse()?,
        })
    }
}

/// `TICKS [MASTERS PORTS]`: without these there are two masters and one port, and what follows them is not looked at.
// Which words a line has is only tested: std's contract of `split_whitespace` speaks of whole runs of it.
impl FromStr for Work {
    type Err = ParseIntError;

    fn from_str(line: &str) -> Result<Work, ParseIntError> {
        let mut words = line.split_whitespace();
        let ticks = words.next().unwrap_or("");
        let masters = words.next().unwrap_or("2");
        let ports = words.next().unwrap_or("1");
        Work::of_words(ticks, masters, ports)
    }
}

#[cfg(test)]
mod tests {
    use super::Work;

    #[test]
    fn a_line_has_ticks_and_maybe_a_size(rt: HostRuntime) {
        let two = Work {
            ticks: 1000,
            masters: 2,
            ports: 1,
        };
        let eight = Work {
            ticks: 1000,
            masters: 8,
            ports: 4,
        };
        assert_eq!(rt; "1000\n".parse::<Work>(), Ok(two));
        assert_eq!(rt; "1000 8 4\n".parse::<Work>(), Ok(eight));
    }

    #[test]
    fn a_line_without_a_number_is_refused(rt: HostRuntime) {
        assert!(rt; "\n".parse::<Work>().is_err());
        assert!(rt; "1000 many 4\n".parse::<Work>().is_err());
    }
}
