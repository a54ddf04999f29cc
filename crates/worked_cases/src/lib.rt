// The worked cases of the formats, proved of the definitions.
#![tactic(auto)]

ghost use Rattle.worked_cases.specs.Cases.{WorkedCases};

#[cfg(test)]
mod tests;

// 300 is the bytes 2, 172; a script that adds 1 to a row is its image and has its mirror; and so on, each by evaluation.
pub fn worked_cases()
    ensures { WorkedCases }
{}
