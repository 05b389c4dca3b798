//! Worked examples of the search, as one theorem about its definitions.
#![tactic(auto)]

ghost use Rattle.examples.specs.Examples.{Examples};

/// Theorem: the worked examples hand out what they say.
pub fn settled_examples()
    ensures { Examples }
{}
