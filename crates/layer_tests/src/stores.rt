//! Stores, and the cells that subscripts lead to.

mod cells;
mod places;
