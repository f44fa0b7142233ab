// The page of the split of a sheet file, or the line of what is refused.
#![tactic(auto)]

mod plans;
mod refused;
mod split_pages;
#[cfg(test)]
mod tests;

pub use pages::MOST_PAGE;
pub use split_pages::split_page;
