// The kinds of nodes that rows look for among the parts of a node.
use java_reader::Kind;

pub(crate) const DIMENSIONS: u16 = Kind::Dims as u16;

pub(crate) const SIZE: u16 = Kind::Size as u16;

pub(crate) const BLOCK: u16 = Kind::Block as u16;

pub(crate) const BODY: u16 = Kind::Body as u16;

pub(crate) const CATCH: u16 = Kind::Catch as u16;

pub(crate) const METHOD: u16 = Kind::Method as u16;

pub(crate) const TYPE: u16 = Kind::Type as u16;

pub(crate) const CLASS_TYPE: u16 = Kind::ClassType as u16;

pub(crate) const TYPES: u16 = Kind::Types as u16;

pub(crate) const LAMBDA_PARAMETER: u16 = Kind::LParam as u16;

pub(crate) const ANNOTATION_ARGUMENT: u16 = Kind::AnnArg as u16;
