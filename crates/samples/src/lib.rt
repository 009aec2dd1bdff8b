// Document 01's sample table, proved from the definitions: specs/ has the table, proofs/ its theorem. No code.
#![tactic(auto)]
