// The last stages, over a store that stands for the program and the candidate: 8, or the verdict.
ghost use Rattle.std.specs.Prelude.{◌≡◌, length};
ghost use Rattle.names.specs.Table.{count};
ghost use Rattle.candidate.specs.Standing.{Settling, AnswersSettled, Judgeable, AnswersJudged};

use fields::answer::Answer;
use judge::judge;
use names::MOST_NAMES;
use orders::any_orders;
use ranks::rank_names;
use verdict::verdict;

// How many facts and how many rules there are.
#[derive(Clone, Copy)]
pub struct Counts {
    pub facts: usize,
    pub rules: usize,
}

// .. and whether some rule has several heads: then the candidate is tested against every proper subset.
#[derive(Clone, Copy)]
pub struct Task {
    pub counts: Counts,
    pub several: bool,
}

// The answer that the judgement gives, with these ranks.
fn judged(program: &[u8], store: &[u64], ranks: &[u32], task: Task, places: &mut [u16]) -> Answer
    requires { Judgeable program.now ranks.now store.now task places.old }
    ensures { AnswersJudged program.now ranks.now store.now task places.old result places.new }
{
    let judgement = judge(
        store,
        ranks,
        task.counts.facts,
        task.counts.rules,
        task.several,
        places,
    );
    verdict(program, judgement, task.counts.facts)
}

// .. with the ranks of names and strings worked out in a table.
fn ranked<'a>(
    program: &'a [u8],
    output: &'a [u8],
    names: &[u32],
    store: &[u64],
    task: Task,
    table: &mut [u32],
    places: &mut [u16],
) -> Answer
    requires { Settling program.now output.now names.now store.now task places.old × (length table.old ≡ count names.now) }
    ensures { AnswersSettled program.now output.now names.now store.now task places.old result places.new }
{
    rank_names(program, output, names, table);
    judged(program, store, table, task, places)
}

fn rank_table() -> [u32; MOST_NAMES] {
    [0; MOST_NAMES]
}

// The answer where the facts are distinct and consistent, there is room, and they are not too many to be tested. Ranks are worked out only
// where a rule asks which of two comes first; else any numbers will do.
pub fn settled<'a>(
    program: &'a [u8],
    output: &'a [u8],
    names: &[u32],
    store: &[u64],
    task: Task,
    places: &mut [u16],
) -> Answer
    requires { Settling program.now output.now names.now store.now task places.old }
    ensures { AnswersSettled program.now output.now names.now store.now task places.old result places.new }
{
    if any_orders(store, task.counts.rules) {
        let size = names[0] as usize;
        let mut table = rank_table();
        return ranked(
            program,
            output,
            names,
            store,
            task,
            &mut table[0..size],
            places,
        );
    }
    judged(program, store, names, task, places)
}
