// Small random plans of nodes that stream, under random orders of steps.
use crate::answers::plain_answer;
use crate::random::Random;
use crate::runs::{answer_at_random, answer_driven};
use crate::worked::options;
use ps_options::options::Options;
use std::alloc::{AllocError, Global};
use std::test::Fail;

// What columns a node's table has: a and b, a alone, or those behind numbers i.
#[derive(Clone, Copy, Debug, PartialEq, Eq)]
enum Columns {
    Both,
    First,
    Numbered,
}

// The nodes of a plan as far as they were written.
#[derive(Drop)]
struct Plan {
    text: String,
    columns: Vec<Columns>,
}

// A list of so many random whole numbers.
fn push_cells(text: &mut String, random: &mut Random, count: usize) -> Result<(), AllocError> {
    text.push_str("[")?;
    for i in 0..count {
        if i > 0 {
            text.push_str(",")?;
        }
        let cell = random.below(9);
        if cell == 8 {
            text.push_str("null")?;
        } else {
            text.write(cell as u64)?;
        }
    }
    text.push_str("]")
}

// A table of up to so many rows.
fn push_table(text: &mut String, random: &mut Random, most: usize) -> Result<(), AllocError> {
    let rows = random.below(most);
    text.push_str("[[\"a\",\"int\",")?;
    push_cells(text, random, rows)?;
    text.push_str("],[\"b\",\"int\",")?;
    push_cells(text, random, rows)?;
    text.push_str("]]")
}

const EXPRS: &str =
    r#"["col","a"],["col","b"],["int",3],["gt",0,2],["add",0,2],["le",0,2],["mul",0,0],["is_null",0],["or",3,7],["int",-1]"#;

impl Plan {
    // One node more.
    fn add(&mut self, node: &str, columns: Columns) -> Result<(), AllocError> {
        if !self.columns.is_empty() {
            self.text.push_str(",")?;
        }
        self.text.push_str(node)?;
        self.columns.push(columns)?;
        Ok(())
    }

    // One of the last nodes, and what columns it has.
    fn pick(&self, random: &mut Random) -> (usize, Columns) {
        let count = self.columns.len();
        let back = random.below(3).min(count.saturating_sub(1));
        let node = count.saturating_sub(back.saturating_add(1));
        if node < count {
            (node, self.columns[node])
        } else {
            (0, Columns::Both)
        }
    }

    // A random node over earlier ones.
    fn grow(&mut self, alloc: Global, random: &mut Random) -> Result<(), AllocError> {
        let (node, columns) = self.pick(random);
        let predicate = [3, 5, 7, 8][random.below(4) % 4];
        let kind = random.below(10);
        let (text, columns) = match kind {
            0 => {
                let table = random.below(2);
                (format!(in alloc; "[\"scan\",{table},null]")?, Columns::Both)
            }
            1 => (
                format!(in alloc; "[\"filter\",{node},{predicate}]")?,
                columns,
            ),
            2 => (
                format!(in alloc; "[\"project\",{node},[\"a\"]]")?,
                Columns::First,
            ),
            3 if columns != Columns::First => (
                format!(in alloc; "[\"select\",{node},[[\"a\",4],[\"b\",1]]]")?,
                Columns::Both,
            ),
            4 => (
                format!(in alloc; "[\"hstack\",{node},[[\"a\",6]]]")?,
                columns,
            ),
            5 if columns == Columns::Both => {
                let offset = random.below(4);
                (
                    format!(in alloc; "[\"row_index\",{node},\"i\",{offset}]")?,
                    Columns::Numbered,
                )
            }
            6 => {
                let offset = random.below(6);
                let length = random.below(8);
                (
                    format!(in alloc; "[\"slice\",{node},{offset},{length}]")?,
                    columns,
                )
            }
            7 => (format!(in alloc; "[\"map\",{node},0]")?, columns),
            8 => (
                format!(in alloc; "[\"select\",{node},[[\"a\",9]]]")?,
                Columns::First,
            ),
            _ => {
                let (other, others) = self.pick(random);
                if others != columns {
                    (
                        format!(in alloc; "[\"filter\",{node},{predicate}]")?,
                        columns,
                    )
                } else {
                    (
                        format!(in alloc; "[\"union\",[{node},{other}],null]")?,
                        columns,
                    )
                }
            }
        };
        self.add(text.as_str(), columns)
    }
}

// The text of a random document.
fn random_document(alloc: Global, random: &mut Random) -> Result<String, AllocError> {
    let mut plan = Plan {
        text: String::new(alloc),
        columns: Vec::new(alloc),
    };
    plan.add("[\"scan\",0,null]", Columns::Both)?;
    for _node in 0..random.below(7).saturating_add(1) {
        plan.grow(alloc, random)?;
    }
    let root = plan.columns.len();
    let last = root.saturating_sub(1);
    let mut text = String::from_str(alloc, "{\"tables\":[")?;
    push_table(&mut text, random, 14)?;
    text.push_str(",")?;
    push_table(&mut text, random, 8)?;
    text.push_str("],\"exprs\":[")?;
    text.push_str(EXPRS)?;
    text.push_str("],\"nodes\":[")?;
    text.push_str(plan.text.as_str())?;
    write!(text, ",[\"sink\",{last}]],\"root\":{root}}}")?;
    Ok(text)
}

// What is wrong with an answer, if anything is.
fn flaw_of(
    alloc: Global,
    document: &str,
    options: &Options,
    plain: &str,
    answer: &str,
) -> Result<String, AllocError> {
    if answer == plain {
        return Ok(String::new(alloc));
    }
    let (workers, rows) = (options.workers(), options.morsel_rows());
    format!(in alloc; "{document} by {workers} of {rows}: {answer} for {plain}")
}

// A random plan in one random run, and in one that is driven to its end: nothing where each answer is the plain one, and else what
// was found.
fn flaw(alloc: Global, seed: u64) -> Result<String, Fail> {
    let mut random = Random::new(seed);
    let document = random_document(alloc, &mut random)?;
    let workers = random.below(8).saturating_add(1);
    let options = options(workers, random.below(5).saturating_add(1))?;
    let text = document.as_str();
    let plain = plain_answer(alloc, text, &options)?;
    let answer = answer_at_random(alloc, text, &options, &mut random)?;
    let mut flaw = flaw_of(alloc, text, &options, plain.as_str(), answer.as_str())?;
    if flaw.is_empty() {
        let answer = answer_driven(alloc, text, &options)?;
        flaw = flaw_of(alloc, text, &options, plain.as_str(), answer.as_str())?;
    }
    Ok(flaw)
}

#[test]
fn random_runs_answer_as_the_plain_walk(rt: HostRuntime) -> Result<(), Fail> {
    let alloc = rt.alloc();
    for seed in 0..2000u64 {
        let flaw = flaw(alloc, seed)?;
        assert_eq!(rt; flaw.as_str(), "", "at {seed}");
    }
    Ok(())
}
