// The sheets of a book: feeds, a bar byte for each, and a total that flows along each. specs/ says which chart they mean.
#![tactic(auto)]

// A feed as a sheet holds it (an arc and its capacity): it runs from one step to another, at a price.
#[derive(Clone, Copy)]
pub struct Feed<P> {
    pub from: u16,
    pub to: u16,
    pub price: P,
}
