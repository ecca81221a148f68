//! Tests of `typst_kinds`, `typst_tree` and `typst_highlight`, of tokens, labels and links, of frames and
//! positions, through their public calls: of what no clause says and no row can.
#![tactic(auto)]

#[cfg(test)]
mod chains;
#[cfg(test)]
mod classes;
#[cfg(test)]
mod frames;
#[cfg(test)]
mod html;
#[cfg(test)]
mod kinds;
#[cfg(test)]
mod lines;
#[cfg(test)]
mod links;
#[cfg(test)]
mod long_rows;
#[cfg(test)]
mod nodes;
#[cfg(test)]
mod numbers;
#[cfg(test)]
mod positions;
#[cfg(test)]
mod refusals;
#[cfg(test)]
mod rows;
#[cfg(test)]
mod tagged;
#[cfg(test)]
mod tokens;
#[cfg(test)]
mod trees;
#[cfg(test)]
mod visits;
#[cfg(test)]
mod walks;
