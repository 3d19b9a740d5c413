#![tactic(auto)]
// What `parse` and `bytes_to_cue` answer, and what they promise: definitions and proofs.
//   specs/Promise       the promise, in the words of document 01
//   proofs/Promises     the promise from what the program's parts ensure
//   proofs/Theorem      two outcomes that meet it are equal, cell by cell; what is left passes `check_track`, and means the track that the
//                       text's tree means
//   proofs/Cases        from what a text means, computed, to the answer and what is left
