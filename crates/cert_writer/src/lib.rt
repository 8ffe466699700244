//! The writer of certificates: for each prefix that is owed it writes the first claim that is true
//! of it, and before the claims, in the second form, the least sums over chains, and in the third
//! lists of prices that were found, as many as there is room for. It stands over the space of
//! settings, whose tables it reads, and beside the checker.
#![tactic(auto)]

mod answers;
mod begin;
mod certificate;
mod copy;
mod entries;
mod head;
mod law;
mod lines;
mod lists;
mod next;
mod price_certificate;
mod prices;
mod stating;

pub use answers::PricesWrite;
pub use certificate::certify_form;
pub use law::written_by_prices;
pub use prices::certify_prices;
