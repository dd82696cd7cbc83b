use table::orders::Orders;

// The resting orders, which trade.
#[derive(Drop)]
pub struct Book {
    orders: Orders,
}

mod questions;

// Each module below sees the private steps of those above it: turns take resting, which follows trading.
pub mod trading;
