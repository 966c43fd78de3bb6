//! Plans of patterns whose orders, places and fill are worked out by hand in docs/PLAN.md, as tests of the compiled planner.
#![tactic(auto)]

#[cfg(test)]
mod sites;
#[cfg(test)]
mod tests;
