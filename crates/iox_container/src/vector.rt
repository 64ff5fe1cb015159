//! Vectors of fixed capacity.
mod error;
mod list_form;
mod polymorphic_vec;
mod static_vec;
mod vector_trait;

pub use error::VectorModificationError;
pub use polymorphic_vec::PolymorphicVec;
pub use static_vec::StaticVec;
pub use vector_trait::Vector;
