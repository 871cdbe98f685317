// The store filled: the rules of a program, the facts of a candidate, and the chains of the facts, each in its part.
#![tactic(auto)]

ghost use Rattle.std.specs.Prelude.{◌≡◌, length};
ghost use Rattle.tables.specs.Stored.{Kept};
ghost use Rattle.chains.specs.Links.{Linked};
ghost use Rattle.program.specs.Rules.{rules_size};
ghost use Rattle.store.specs.Store.{store_size, links_in};
ghost use Rattle.filling.specs.Filling.{RulesFillable, RulesRead, RulesFilled, FactsFillable, FactsFilled};

use clashes::{Clashing, first_clash};
use program::read_program;
use program::space::rule_table;
use store::{FACTS, LINKS, LITERALS, RULES, STORE, links};
use tables::row::put_row;
use texts::refusal::Refused;

// A store in which every number is zero.
pub fn empty_store() -> [u64; STORE] {
    [0; STORE]
}

// The program is read, with its literals in their part of the store and its rules beside it.
fn read_rules<'a>(
    program: &'a [u8],
    output: &'a [u8],
    names: &mut [u32],
    rules: &mut [u64],
    store: &mut [u64],
) -> Result<usize, Refused>
    requires { RulesFillable program.now output.now names.old store.old × (length rules.old ≡ rules_size) }
    ensures { RulesRead program.now output.now names.old rules.old store.old result names.new rules.new store.new }
{
    read_program(program, output, names, rules, &mut store[LITERALS..RULES])
}

// The program is read: its literals stand in their part at once; its rules, which are read beside them, are put into theirs.
pub fn fill_rules<'a>(
    program: &'a [u8],
    output: &'a [u8],
    names: &mut [u32],
    store: &mut [u64],
) -> Result<usize, Refused>
    requires { RulesFillable program.now output.now names.old store.old }
    ensures { RulesFilled program.now output.now names.old store.old result names.new store.new }
{
    let mut rules = rule_table();
    let read = read_rules(program, output, names, &mut rules, store);
    put_row(store, RULES, &rules);
    read
}

fn link_facts(facts: &[u64], predicates: &[u64], count: usize, store: &mut [u64])
    requires { FactsFillable facts.now predicates.now count store.old }
    ensures { Linked (links_in store.new) facts.now count × Kept 75_776 store_size store.old store.new }
{
    chains::build(facts, predicates, count, &mut store[LINKS..STORE]);
}

// The facts are put into their part, and their chains are built; then the first fact that clashes with an earlier one.
pub fn fill_facts(
    facts: &[u64],
    predicates: &[u64],
    count: usize,
    store: &mut [u64],
) -> Option<Clashing>
    requires { FactsFillable facts.now predicates.now count store.old }
    ensures { FactsFilled facts.now count store.old store.new result }
{
    put_row(store, FACTS, facts);
    link_facts(facts, predicates, count, store);
    first_clash(facts, links(store), count)
}
