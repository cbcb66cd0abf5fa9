//! Tables of answers, in lines as `R*/B -> BD/R`: `*` stands for each state, and of the lines that fit the first one counts.
use std::test::Fail;

/// All states of an output alone.
pub const NO_INPUT: &str = "/B /R /D";

/// All states of an input and an output.
pub const ONE_INPUT: &str = "B/B B/R B/D R/B R/R R/D D/B D/R D/D";

/// All states of two inputs and an output.
pub const TWO_INPUTS: &str = "
BB/B BB/R BB/D BR/B BR/R BR/D BD/B BD/R BD/D
RB/B RB/R RB/D RR/B RR/R RR/D RD/B RD/R RD/D
DB/B DB/R DB/D DR/B DR/R DR/D DD/B DD/R DD/D
";

// Whether a line that begins so is for these states.
fn is_for(given: &str, states: &str) -> bool {
    let mut letters = states.chars();
    for mark in given.chars() {
        match letters.next() {
            Some(letter) if mark == '*' || mark == letter => (),
            _ => return false,
        }
    }
    letters.next().is_none()
}

/// What a table, of one text or of several, answers to these states.
pub fn answer_in<'a>(table: &[&'a str], states: &str) -> Result<&'a str, Fail> {
    for lines in table {
        for line in lines.trim().lines() {
            let Some((given, answer)) = line.split_once(" -> ") else {
                return Err(Fail::from("a line without an answer"));
            };
            if is_for(given, states) {
                return Ok(answer);
            }
        }
    }
    Err(Fail::new(format_args!("no answer to {states}")))
}
