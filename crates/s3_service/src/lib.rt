//! What an S3 service is and may answer: its state, each request served or refused, listings. Definitions alone.
#![tactic(auto)]
