// Goals see what each reader promises of its answer.
#![tactic(auto, unfolding(tree::specs::Reading::Parsed, tree::specs::Reading::Extended, tree::specs::Reading::Tallied, crate::specs::Channels::Items, crate::specs::Names::Listing, crate::specs::Line::Parameters, crate::specs::Braces::Inside))]

// The reader of model texts: from the kinds of a text's tokens to a table of nodes, or the first token that doesn't fit.
pub mod action;
pub mod braced;
pub mod channel;
pub mod condition;
pub mod entries;
pub mod expression;
pub mod left;
pub mod line;
pub mod named;
pub mod point;
pub mod process;
pub mod question;
pub mod rate;
pub mod set;
pub mod site;
pub mod spot;
