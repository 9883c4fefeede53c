//! The abstract machine that evaluates plans: pending work over a stack of values, with no recursion of its own.
#![tactic(auto)]

mod answer;
mod arithmetic;
mod blocks;
mod bound;
mod calling;
mod change;
mod comparison;
mod constructing;
mod converting;
mod declarations;
mod deep_equal;
mod evaluation;
pub mod evaluator;
mod failure;
mod filtering;
mod frames;
mod hand;
mod instances;
mod item_calling;
mod joining;
mod locals;
mod looping;
mod marking;
mod node_calling;
mod nodes;
mod opening;
mod operand;
mod operators;
mod paths;
mod range;
mod sets;
mod single;
mod stepping;
mod switching;
mod tuples;
mod value_calling;
