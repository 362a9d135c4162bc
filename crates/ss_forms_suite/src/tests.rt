mod car;
mod cbor;
mod chain;
mod cid;
mod hash;
mod records;
